ghost use Rattle.std.specs.Prelude.{◌↔◌, IsTrue, ◌≡◌, true, [], ◌+◌, ◌-◌, ◌^◌, ◌<◌, ◌≤◌};
ghost use Rattle.http_exchange.specs.Steps.{IsAwaiting, ReceivesAnswer, is_longer_than};

use crate::body::await_body;
use crate::head::await_head;
use crate::told::Told;
use dav_link::{Link, LinkErr};
use http1::Client;
use jop_base::Bytes;
use std::alloc::Global;

/// An answer.
#[derive(Debug, Drop)]
pub struct Received {
    pub told: Told,
    /// The bytes that its body carries, without the lines of chunks; none of a body whose length is past the limit,
    /// which isn't waited for.
    pub body: Bytes,
    /// Whether another request may follow: the connection stays, and nothing came behind the answer.
    pub ready: bool,
}

/// Whether another request may follow over the connection.
fn may_go_on(told: &Told, unread: &Bytes) -> bool
    ensures { IsTrue result ↔ ((told.now.lasting ≡ true) × (unread.now ≡ [])) }
{
    told.lasting && unread.is_empty()
}

/// Whether a length is past the limit.
fn is_longer_than(length: Option<u64>, limit: usize) -> bool
    ensures { result ≡ is_longer_than length limit }
{
    match length {
        Some(length) => (limit as u64) < length,
        None => false,
    }
}

/// Reads the answer to the request that the client has sent. `Fault` if the link failed, if it ended before the answer
/// did, if no answer comes, if its body turns out to have more bytes than the limit, or if more than `most` bytes came
/// behind those with which the head came.
pub fn receive<L: Link>(
    alloc: Global,
    link: &mut L,
    client: &mut Client,
    limit: usize,
    most: u64,
) -> Result<Received, LinkErr>
    requires awaits { IsAwaiting client.old }
    requires heads { client.old.limits.max_head_len ≤ 16_384 }
    requires bounded { limit + most < 2 ^ 64 - 1 }
    ensures { ReceivesAnswer client.old.limits (L.state link.old) limit most result
        (L.state link.new) }
{
    let mut unread = Bytes::new(alloc);
    let told = await_head(alloc, link, client, &mut unread, limit, most)?;
    if is_longer_than(told.length, limit) {
        return Ok(Received {
            told,
            body: Bytes::new(alloc),
            ready: false,
        });
    }
    let body = await_body(alloc, link, client, &mut unread, limit, most)?;
    let ready = may_go_on(&told, &unread);
    Ok(Received { told, body, ready })
}

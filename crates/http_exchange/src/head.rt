ghost use Rattle.std.specs.Prelude.{◌≡◌, ◌≤◌, [], IfOk, IfErr, length, drop};
ghost use Rattle.http_exchange.specs.Steps.{AwaitsFinal, AwaitsOneHead, IsAwaiting};

use crate::told::{Told, told_from};
use dav_link::{Link, LinkErr, read_on};
use http1::{Client, Event};
use httparse::spans::EMPTY_HEADER_SPAN;
use jop_base::Bytes;
use std::alloc::Global;

/// One more than the most bytes of a head. Each round but the first has read at least one byte more.
const HEAD_ROUNDS: usize = 16_385;

/// One more than the most heads of 1xx before a response.
const HEADS: usize = 17;

/// The most fields of a head, and the most trailers.
pub(crate) const FIELD_LIMIT: usize = 128;

/// The bytes from a place on.
pub(crate) fn rest_of(alloc: Global, bytes: &Bytes, from: usize) -> Result<Bytes, LinkErr>
    requires { from ≤ length bytes.now }
    ensures ok { IfOk result (λ rest. rest ≡ drop from bytes.now) }
    ensures memory { IfErr result (λ e. e ≡ LinkErr.NoMemory) }
{
    let rest = bytes.as_slice()[from..].to_vec(alloc)?;
    Ok(Bytes::from_vec(rest))
}

/// Reads one head: what it tells, or None of a head of 1xx. `unread` has what came behind it. `Fault` if the link
/// failed, if it ended before the head did, or if the bytes begin with no head that is read over.
fn await_one_head<L: Link>(
    alloc: Global,
    link: &mut L,
    client: &mut Client,
    unread: &mut Bytes,
) -> Result<Option<Told>, LinkErr>
    requires awaits { IsAwaiting client.old }
    requires bounded { client.old.limits.max_head_len ≤ 16_384 }
    ensures { AwaitsOneHead client.old (L.state link.old) unread.old result client.new
        (L.state link.new) unread.new }
{
    for round in 0..HEAD_ROUNDS {
        let mut spans = [EMPTY_HEADER_SPAN; FIELD_LIMIT];
        let Ok(progress) = client.read(unread.as_slice(), &mut spans) else {
            return Err(LinkErr::Fault);
        };
        match progress.event {
            Event::Head(head) => {
                let told = told_from(unread.as_slice(), &spans, &head);
                *unread = rest_of(alloc, unread, progress.consumed)?;
                return Ok(Some(told));
            }
            Event::Informational(_) => {
                *unread = rest_of(alloc, unread, progress.consumed)?;
                return Ok(None);
            }
            Event::NeedMore => {
                if !read_on(link, unread, 1)? {
                    return Err(LinkErr::Fault);
                }
            }
            Event::Data(_) => return Err(LinkErr::Fault),
            Event::End(_) => return Err(LinkErr::Fault),
            Event::Paused => return Err(LinkErr::Fault),
            Event::Upgraded => return Err(LinkErr::Fault),
            Event::Closed => return Err(LinkErr::Fault),
        }
    }
    Err(LinkErr::Fault)
}

/// Reads the head of the response, behind at most sixteen heads of 1xx: what it tells. `unread` has what came behind
/// it. `Fault` if the link failed, if it ended before the head did, or if the bytes begin with no such heads.
pub(crate) fn await_head<L: Link>(
    alloc: Global,
    link: &mut L,
    client: &mut Client,
    unread: &mut Bytes,
    limit: usize,
    most: u64,
) -> Result<Told, LinkErr>
    requires awaits { IsAwaiting client.old }
    requires bounded { client.old.limits.max_head_len ≤ 16_384 }
    requires fresh { unread.old ≡ [] }
    ensures { AwaitsFinal client.old (L.state link.old) limit most result client.new
        (L.state link.new) unread.new }
{
    for round in 0..HEADS {
        let head = await_one_head(alloc, link, client, unread)?;
        match head {
            Some(told) => return Ok(told),
            None => {}
        }
    }
    Err(LinkErr::Fault)
}

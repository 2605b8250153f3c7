ghost use Rattle.std.specs.Prelude.{◌≡◌, ◌+◌, ◌-◌, ◌^◌, ◌<◌, false, length};
ghost use Rattle.http1.specs.Framing.{method_kind};
ghost use Rattle.http1.specs.Head.{pairs};
ghost use Rattle.http1.specs.declared.conn.BodySize.TheVariants.{Known};
ghost use Rattle.http1.specs.declared.framing.MethodKind.TheVariants.{Other};
ghost use Rattle.http_exchange.specs.Texts.{asks_to_upgrade};
ghost use Rattle.http_exchange.specs.Whole.{ExchangesOnce};

use crate::receiving::{Received, receive};
use crate::request::write_text;
use dav_link::{Link, LinkErr, write_message};
use http1::{Client, Header, Limits};
use std::alloc::Global;

/// Writes a request to a link, whole before anything is read, and reads its answer. `most` bytes may come behind those
/// with which the head came, and the body may carry as many as the limit.
pub fn exchange<L: Link>(
    alloc: Global,
    link: &mut L,
    method: &[u8],
    target: &[u8],
    headers: &[Header<'_>],
    body: &[u8],
    limit: usize,
    most: u64,
) -> Result<Received, LinkErr>
    requires kind { method_kind method.now ≡ Other }
    requires plain { asks_to_upgrade (Known (length body.now)) (pairs headers.now) ≡ false }
    requires bounded { limit + most < 2 ^ 64 - 1 }
    ensures { ExchangesOnce method.now target.now (pairs headers.now) body.now (L.state link.old)
        limit most result (L.state link.new) }
{
    let limits = Limits {
        max_head_len: 16_384,
        max_extensions_len: 16_384,
        max_trailers_len: 16_384,
    };
    let mut client = Client::new(limits);
    let text = write_text(alloc, &mut client, method, target, headers, body)?;
    write_message(link, text.as_slice())?;
    let received = receive(alloc, link, &mut client, limit, most)?;
    Ok(received)
}

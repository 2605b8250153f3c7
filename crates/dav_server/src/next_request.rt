ghost use Rattle.std.specs.Prelude.{◌≡◌, ◌↔◌, IsTrue};
ghost use Rattle.dav_wire.specs.declared.request_reader.ReadRequest.TheVariants.{More};
ghost use Rattle.dav_server.specs.Hearing.{HearsRequest};

use dav_link::{Link, LinkErr, Message, await_message};
use dav_wire::{ReadRequest, read_request, request_missing};
use jop_base::Bytes;
use jop_target::BLOB_LIMIT;
use std::alloc::{AllocError, Global};

/// The next request that comes over a link.
pub(crate) struct NextRequest;

fn is_more(read: &ReadRequest) -> bool
    ensures { IsTrue result ↔ (read.now ≡ More) }
{
    matches!(read, ReadRequest::More)
}

impl Message for NextRequest {
    ghost use Rattle.std.proofs.Common.{inl, inr};
    ghost use Rattle.std.specs.Prelude.{◌-◌, length, refl};
    ghost use Rattle.dav_wire.proofs.RequestMissing.{missing_falls, more_while_missing, none_missing};
    ghost use Rattle.dav_server.specs.Hearing.{request_now};

    ghost reads = { λ _. request_now };

    fn missing(&self, bytes: &[u8]) -> Option<u64> {
        request_missing(bytes)
    }

    fn is_more(&self, alloc: Global, bytes: &[u8]) -> Result<bool, AllocError> {
        let read = read_request(alloc, bytes)?;
        Ok(is_more(&read))
    }

    /// As long as any file may be.
    fn limit(&self) -> u64 {
        BLOB_LIMIT
    }

    ghost laws = { λ _. record {
      lacks = more_while_missing;
      falls = missing_falls;
      enough = none_missing;
      short = λ bytes none more. elim more [
        | inl head ↦ absurd (none (head.3.0 - length head.1)
            (head.0, head.1, head.2, head.3.0, head.3.1, refl))
        | inr early ↦ early.short
      ];
    } };
}

/// Reads until the bytes that are kept begin with a whole request, or with one that is refused.
/// `More` if the link ended before.
pub(crate) fn hear<L: Link>(
    alloc: Global,
    link: &mut L,
    kept: &mut Bytes,
) -> Result<ReadRequest, LinkErr>
    ensures { HearsRequest (L.state link.old) kept.old result (L.state link.new) kept.new }
{
    if !await_message(alloc, link, &NextRequest, kept)? {
        return Ok(ReadRequest::More);
    }
    let read = read_request(alloc, kept.as_slice())?;
    Ok(read)
}

ghost use Rattle.std.specs.Prelude.{◌+◌, ◌<◌, ◌^◌, IfOk, MatchOption, length};
ghost use Rattle.dav_wire.specs.declared.frame.Frame.TheVariants.{Body};
ghost use Rattle.dav_wire.specs.ResponseReading.{IsReplyOf, IsNoReply, ResponseReadsAs, ResponseBodyReadsAs};

use crate::frame::Frame;
use crate::head_reader::{ReadHead, read_head};
use crate::outcome::Outcome;
use dav_parts::read_multistatus;
use jop_base::{Bytes, Dir};
use jop_target::{Call, Listing, Reply};
use std::alloc::{AllocError, Global};

/// What a client has read in the bytes that came so far.
#[derive(Debug, Drop)]
pub enum ReadResponse {
    /// A reply, the bytes of the blob that was got, and how many bytes the response takes.
    Whole {
        reply: Reply,
        blob: Bytes,
        used: u64,
    },
    /// No whole response, and none that can't be read.
    More,
    /// No response to the call; the connection is of no more use.
    Bad,
}

/// What the body of a listing tells. None if it isn't in its layout.
fn listed(
    alloc: Global,
    now: u64,
    dir: Dir,
    body: &[u8],
) -> Result<Option<(Reply, Bytes)>, AllocError>
    ensures { IfOk result (λ found. MatchOption found
        (IsNoReply (Outcome.Listing dir) body.now)
        (λ x. IsReplyOf now (Outcome.Listing dir) body.now x.0 x.1)) }
{
    match read_multistatus(alloc, dir, body)? {
        None => Ok(None),
        Some(entries) => {
            let reply = Reply::Listed(Listing { now, entries });
            Ok(Some((reply, Bytes::new(alloc))))
        }
    }
}

/// What a whole body tells. None if it isn't in the layout of a listing.
fn reply_of(
    alloc: Global,
    now: u64,
    outcome: Outcome,
    body: &[u8],
) -> Result<Option<(Reply, Bytes)>, AllocError>
    ensures { IfOk result (λ found. MatchOption found (IsNoReply outcome body.now)
        (λ x. IsReplyOf now outcome body.now x.0 x.1)) }
{
    match outcome {
        Outcome::Listing(dir) => {
            let found = listed(alloc, now, dir, body)?;
            Ok(found)
        }
        Outcome::Content(_) => {
            let content = Bytes::from_vec(body.to_vec(alloc)?);
            Ok(Some((Reply::Got { now, content }, Bytes::new(alloc))))
        }
        Outcome::Blob => {
            let len = body.len() as u64;
            let blob = Bytes::from_vec(body.to_vec(alloc)?);
            Ok(Some((Reply::GotBlob { now, len }, blob)))
        }
        Outcome::Absent => Ok(Some((Reply::Absent { now }, Bytes::new(alloc)))),
        Outcome::Done => Ok(Some((Reply::Done { now }, Bytes::new(alloc)))),
        Outcome::Other => Ok(None),
    }
}

/// Reads what follows a head that tells this.
fn read_body(
    alloc: Global,
    frame: Frame,
    rest: &[u8],
    len: usize,
) -> Result<ReadResponse, AllocError>
    requires { len + length rest.now < 2 ^ 64 }
    ensures { IfOk result (ResponseBodyReadsAs frame rest.now len) }
{
    match frame {
        Frame::Unreadable => Ok(ReadResponse::Bad),
        Frame::TooLong(count) => Ok(ReadResponse::Whole {
            reply: Reply::TooLarge { len: count },
            blob: Bytes::new(alloc),
            used: len as u64,
        }),
        Frame::Body(now, outcome, count) => read_told(alloc, now, outcome, count, rest, len),
    }
}

/// Reads a body of so many bytes, which tells this at that moment.
fn read_told(
    alloc: Global,
    now: u64,
    outcome: Outcome,
    count: u64,
    rest: &[u8],
    len: usize,
) -> Result<ReadResponse, AllocError>
    requires { len + length rest.now < 2 ^ 64 }
    ensures { IfOk result (ResponseBodyReadsAs (Body now outcome count) rest.now len) }
{
    if (rest.len() as u64) < count {
        return Ok(ReadResponse::More);
    }
    match reply_of(alloc, now, outcome, &rest[..count as usize])? {
        None => Ok(ReadResponse::Bad),
        Some((reply, blob)) => {
            let used = len as u64 + count;
            Ok(ReadResponse::Whole { reply, blob, used })
        }
    }
}

/// The response to a call that the bytes begin with. `Bad` comes for what is no head of HTTP/1.1,
/// for a head of more than 16,384 bytes or 128 fields, for a status that answers no such call, for
/// a `Transfer-Encoding`, unless there is exactly one `Date`, which is readable, and, but for 204,
/// exactly one `Content-Length`, which is readable; and at the end of a body that isn't in the
/// layout of a listing. A length past the file's limit is `TooLarge` by the head alone; then the
/// connection is of no more use.
pub fn read_response(alloc: Global, call: &Call, bytes: &[u8]) -> Result<ReadResponse, AllocError>
    ensures { IfOk result (ResponseReadsAs call.now bytes.now) }
{
    match read_head(alloc, call, bytes)? {
        ReadHead::Whole { frame, len, .. } => {
            let read = read_body(alloc, frame, &bytes[len..], len)?;
            Ok(read)
        }
        ReadHead::More => Ok(ReadResponse::More),
        ReadHead::Bad => Ok(ReadResponse::Bad),
    }
}

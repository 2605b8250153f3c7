ghost use Rattle.std.specs.Prelude.{◌≡◌, ◌+◌, ◌<◌, ◌≤◌, ◌^◌, ◌↔◌, ℕ, IsTrue, IfOk, IfSome, IfNone, MatchOption, length, map, take, All};
ghost use Rattle.httparse.specs.Grammar.{NeverHasRequest};
ghost use Rattle.httparse.specs.Spans.{IsHeaderWithin, IsRequestWithin, IsRequestOf, RequestExceeds, header_bytes};
ghost use Rattle.dav_wire.specs.RequestReading.{RequestReadsAs, RequestHeadReadsAs, RequestBodyReadsAs};

use crate::framing::{Framing, framing_of};
use crate::limits::{FIELD_LIMIT, FIELD_ROOM, HEAD_LIMIT, head_part};
use crate::request::{Request, request_of};
use crate::target_stage::ends_in_target;
use httparse::spans::{EMPTY_HEADER_SPAN, HeaderSpan, RequestSpans, parse_request};
use httparse::{Error, Status};
use std::alloc::{AllocError, Global};

/// What a server has read in the bytes that came so far.
#[derive(Debug, Drop)]
pub enum ReadRequest {
    /// A request, and how many bytes it takes.
    Whole { request: Request, used: u64 },
    /// No whole request, and none that is refused.
    More,
    /// No request, and the status to answer; the connection is of no more use.
    Bad(u16),
}

/// Reads what follows a head.
fn read_body(
    alloc: Global,
    method: &[u8],
    target: &[u8],
    text: &[u8],
    fields: &[HeaderSpan],
    rest: &[u8],
    len: usize,
) -> Result<ReadRequest, AllocError>
    requires within { All (IsHeaderWithin (length text.now)) fields.now }
    requires fits { len + length rest.now < 2 ^ 64 }
    ensures { IfOk result (RequestBodyReadsAs method.now target.now
        (map (header_bytes text.now) fields.now) rest.now len) }
{
    match framing_of(method, target, text, fields) {
        Framing::Refused(status) => Ok(ReadRequest::Bad(status)),
        Framing::Body(count) => {
            if (rest.len() as u64) < count {
                return Ok(ReadRequest::More);
            }
            let body = &rest[..count as usize];
            let request = request_of(alloc, method, target, text, fields, body)?;
            let used = len as u64 + count;
            Ok(ReadRequest::Whole { request, used })
        }
    }
}

/// Whether a head has more fields than there was room for.
pub(crate) fn is_crowded(error: Error) -> bool
    ensures { IsTrue result ↔ (error ≡ Error.TooManyHeaders) }
{
    matches!(error, Error::TooManyHeaders)
}

/// Reads on after a whole head.
fn read_after_head(
    alloc: Global,
    bytes: &[u8],
    part: &[u8],
    head: &RequestSpans,
    room: &[HeaderSpan],
) -> Result<ReadRequest, AllocError>
    requires part { part.now ≡ take HEAD_LIMIT bytes.now }
    requires within { IsRequestWithin part.now room.now head.now }
    requires whole { IsRequestOf part.now room.now head.now }
    requires fits { head.now.len ≤ length bytes.now }
    ensures { IfOk result (RequestHeadReadsAs bytes.now) }
{
    let method = head.method.of(part);
    let target = head.path.of(part);
    let fields = &room[..head.headers];
    let rest = &bytes[head.len..];
    let read = read_body(alloc, method, target, part, fields, rest, head.len)?;
    Ok(read)
}

/// What is read if `httparse` refuses what there is of a head. It tests a target for UTF-8 at the
/// target's end; should it refuse one earlier, this waits.
fn refused(bytes: &[u8]) -> ReadRequest
    requires { NeverHasRequest (take HEAD_LIMIT bytes.now) }
    ensures { RequestReadsAs bytes.now result }
{
    if bytes.len() < HEAD_LIMIT && ends_in_target(bytes) {
        ReadRequest::More
    } else {
        ReadRequest::Bad(400)
    }
}

/// Reads with room for so many fields. None if there are more.
fn read_in(
    alloc: Global,
    bytes: &[u8],
    room: &mut [HeaderSpan],
) -> Result<Option<ReadRequest>, AllocError>
    ensures { IfOk result (λ read. MatchOption read
        (RequestExceeds (length room.old) (take HEAD_LIMIT bytes.now))
        (RequestReadsAs bytes.now)) }
{
    let part = head_part(bytes);
    match parse_request(part, room) {
        Ok(Status::Complete(head)) => {
            let read = read_after_head(alloc, bytes, part, &head, room)?;
            Ok(Some(read))
        }
        Ok(Status::Partial) => {
            if bytes.len() < HEAD_LIMIT {
                Ok(Some(ReadRequest::More))
            } else {
                Ok(Some(ReadRequest::Bad(400)))
            }
        }
        Err(error) => {
            if is_crowded(error) {
                Ok(None)
            } else {
                Ok(Some(refused(bytes)))
            }
        }
    }
}

/// Reads with room for as many fields as a head can have.
fn read_crowded(alloc: Global, bytes: &[u8]) -> Result<ReadRequest, AllocError>
    ensures { IfOk result (RequestReadsAs bytes.now) }
{
    let mut room = vec![in alloc; EMPTY_HEADER_SPAN; FIELD_ROOM]?;
    match read_in(alloc, bytes, room.as_mut_slice())? {
        Some(read) => Ok(read),
        None => unreachable!(),
    }
}

/// The request that the bytes begin with. `Bad` comes as soon as no later bytes can make it
/// readable: 400 for what is no head of HTTP/1.1, for a head of more than 16,384 bytes or 128
/// fields, for a `Transfer-Encoding`, and for a `Content-Length` that is repeated, unreadable, or
/// absent from a PUT; 413 for a PUT that is longer than its file may be. Every other refusal is a
/// whole request with its status.
pub fn read_request(alloc: Global, bytes: &[u8]) -> Result<ReadRequest, AllocError>
    ensures { IfOk result (RequestReadsAs bytes.now) }
{
    let mut room = [EMPTY_HEADER_SPAN; FIELD_LIMIT];
    match read_in(alloc, bytes, &mut room)? {
        Some(read) => Ok(read),
        None => {
            let read = read_crowded(alloc, bytes)?;
            Ok(read)
        }
    }
}

ghost use Rattle.std.specs.Prelude.{◌≡◌, ◌≤◌, ℕ, IfSome, IfNone, length, take};
ghost use Rattle.httparse.specs.Spans.{IsRequestWithin, IsRequestOf, IsResponseWithin, IsResponseOf};
ghost use Rattle.dav_wire.specs.RequestReading.{IsRequestMissing};
ghost use Rattle.dav_wire.specs.ResponseReading.{IsResponseMissing};

use crate::frame::{Frame, frame_of};
use crate::framing::{Framing, framing_of};
use crate::limits::{FIELD_LIMIT, HEAD_LIMIT, head_part};
use httparse::Status;
use httparse::spans::{
    EMPTY_HEADER_SPAN, HeaderSpan, RequestSpans, ResponseSpans, parse_request, parse_response,
};
use jop_target::Call;

fn missing_of_request(
    bytes: &[u8],
    part: &[u8],
    head: &RequestSpans,
    room: &[HeaderSpan],
) -> Option<u64>
    requires part { part.now ≡ take HEAD_LIMIT bytes.now }
    requires within { IsRequestWithin part.now room.now head.now }
    requires whole { IsRequestOf part.now room.now head.now }
    requires fits { head.now.len ≤ length bytes.now }
    ensures some { IfSome result (IsRequestMissing bytes.now) }
    ensures none { IfNone result ((missing : ℕ) → ¬ (IsRequestMissing bytes.now missing)) }
{
    let method = head.method.of(part);
    let target = head.path.of(part);
    let fields = &room[..head.headers];
    let rest = &bytes[head.len..];
    match framing_of(method, target, part, fields) {
        Framing::Refused(_) => None,
        Framing::Body(count) => Some(count.saturating_sub(rest.len() as u64)),
    }
}

/// How many bytes are missing of the request that the bytes begin with, as soon as its head tells;
/// 0 if none is. None if the head isn't whole, or is refused.
pub fn request_missing(bytes: &[u8]) -> Option<u64>
    ensures some { IfSome result (IsRequestMissing bytes.now) }
    ensures none { IfNone result ((missing : ℕ) → ¬ (IsRequestMissing bytes.now missing)) }
{
    let mut room = [EMPTY_HEADER_SPAN; FIELD_LIMIT];
    let part = head_part(bytes);
    match parse_request(part, &mut room) {
        Ok(Status::Complete(head)) => missing_of_request(bytes, part, &head, &room),
        Ok(Status::Partial) => None,
        Err(_) => None,
    }
}

fn missing_of_response(
    call: &Call,
    bytes: &[u8],
    part: &[u8],
    head: &ResponseSpans,
    room: &[HeaderSpan],
) -> Option<u64>
    requires part { part.now ≡ take HEAD_LIMIT bytes.now }
    requires within { IsResponseWithin part.now room.now head.now }
    requires whole { IsResponseOf part.now room.now head.now }
    requires fits { head.now.len ≤ length bytes.now }
    ensures some { IfSome result (IsResponseMissing call.now bytes.now) }
    ensures none { IfNone result
        ((missing : ℕ) → ¬ (IsResponseMissing call.now bytes.now missing)) }
{
    let fields = &room[..head.headers];
    let rest = &bytes[head.len..];
    match frame_of(call, head.code, part, fields) {
        Frame::Body(_, _, count) => Some(count.saturating_sub(rest.len() as u64)),
        Frame::Unreadable => None,
        Frame::TooLong(_) => None,
    }
}

/// How many bytes are missing of the response to a call that the bytes begin with, as soon as its
/// head tells; 0 if none is. None if the head isn't whole, answers no such call, or tells a length
/// past the file's limit.
pub fn response_missing(call: &Call, bytes: &[u8]) -> Option<u64>
    ensures some { IfSome result (IsResponseMissing call.now bytes.now) }
    ensures none { IfNone result
        ((missing : ℕ) → ¬ (IsResponseMissing call.now bytes.now missing)) }
{
    let mut room = [EMPTY_HEADER_SPAN; FIELD_LIMIT];
    let part = head_part(bytes);
    match parse_response(part, &mut room) {
        Ok(Status::Complete(head)) => missing_of_response(call, bytes, part, &head, &room),
        Ok(Status::Partial) => None,
        Err(_) => None,
    }
}

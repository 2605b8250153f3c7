ghost use Rattle.std.specs.Prelude.{◌≡◌, ◌≤◌, ◌==◌, ◌&&◌, not, IfOk, MatchOption, length, map, take, All};
ghost use Rattle.httparse.specs.Spans.{IsHeaderWithin, IsResponseWithin, IsResponseOf, ResponseExceeds, header_bytes};
ghost use Rattle.dav_wire.specs.HeadReading.{HeadReadsAs};
ghost use Rattle.dav_wire.specs.Requests.{closes};

use crate::frame::{Frame, frame_of};
use crate::limits::{FIELD_LIMIT, FIELD_ROOM, HEAD_LIMIT, head_part};
use crate::request_reader::is_crowded;
use dav_parts::has_value;
use httparse::Status;
use httparse::spans::{EMPTY_HEADER_SPAN, HeaderSpan, ResponseSpans, parse_response};
use jop_target::Call;
use std::alloc::{AllocError, Global};

/// What a client has read of the head of a response in the bytes that came so far.
#[derive(Clone, Copy, Debug, PartialEq, Eq)]
pub enum ReadHead {
    /// What a whole head tells, how many bytes it has, and whether the connection stays open behind
    /// the response.
    Whole {
        frame: Frame,
        len: usize,
        lasts: bool,
    },
    /// No whole head, and none that can't be read.
    More,
    /// No head of a response.
    Bad,
}

/// Whether the connection stays open, by a head's minor version and fields.
fn stays_open(version: u8, text: &[u8], fields: &[HeaderSpan]) -> bool
    requires { All (IsHeaderWithin (length text.now)) fields.now }
    ensures { result ≡ ((version == 1) && not (closes (map (header_bytes text.now) fields.now))) }
{
    version == 1 && !has_value(text, fields, b"connection", b"close")
}

/// What a whole head tells.
fn whole_head(
    call: &Call,
    bytes: &[u8],
    part: &[u8],
    head: &ResponseSpans,
    room: &[HeaderSpan],
) -> ReadHead
    requires part { part.now ≡ take HEAD_LIMIT bytes.now }
    requires within { IsResponseWithin part.now room.now head.now }
    requires whole { IsResponseOf part.now room.now head.now }
    requires fits { head.now.len ≤ length bytes.now }
    ensures { HeadReadsAs call.now bytes.now result }
{
    let fields = &room[..head.headers];
    let frame = frame_of(call, head.code, part, fields);
    let lasts = stays_open(head.version, part, fields);
    ReadHead::Whole {
        frame,
        len: head.len,
        lasts,
    }
}

/// Reads with room for so many fields. None if there are more.
fn read_in(call: &Call, bytes: &[u8], room: &mut [HeaderSpan]) -> Option<ReadHead>
    ensures { MatchOption result
        (ResponseExceeds (length room.old) (take HEAD_LIMIT bytes.now))
        (HeadReadsAs call.now bytes.now) }
{
    let part = head_part(bytes);
    match parse_response(part, room) {
        Ok(Status::Complete(head)) => Some(whole_head(call, bytes, part, &head, room)),
        Ok(Status::Partial) => {
            if bytes.len() < HEAD_LIMIT {
                Some(ReadHead::More)
            } else {
                Some(ReadHead::Bad)
            }
        }
        Err(error) => {
            if is_crowded(error) {
                None
            } else {
                Some(ReadHead::Bad)
            }
        }
    }
}

/// Reads with room for as many fields as a head can have.
fn read_crowded(alloc: Global, call: &Call, bytes: &[u8]) -> Result<ReadHead, AllocError>
    ensures { IfOk result (HeadReadsAs call.now bytes.now) }
{
    let mut room = vec![in alloc; EMPTY_HEADER_SPAN; FIELD_ROOM]?;
    match read_in(call, bytes, room.as_mut_slice()) {
        Some(read) => Ok(read),
        None => unreachable!(),
    }
}

/// The head of the response to a call that the bytes begin with. `Bad` comes for what is no head of
/// HTTP/1.0 or 1.1, and for one of more than 16,384 bytes, as soon as so many came.
pub fn read_head(alloc: Global, call: &Call, bytes: &[u8]) -> Result<ReadHead, AllocError>
    ensures { IfOk result (HeadReadsAs call.now bytes.now) }
{
    let mut room = [EMPTY_HEADER_SPAN; FIELD_LIMIT];
    match read_in(call, bytes, &mut room) {
        Some(read) => Ok(read),
        None => {
            let read = read_crowded(alloc, call, bytes)?;
            Ok(read)
        }
    }
}

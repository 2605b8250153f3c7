ghost use Rattle.std.specs.Prelude.{◌≡◌, length, map, All, codes};
ghost use Rattle.httparse.specs.Spans.{IsHeaderWithin, header_bytes};
ghost use Rattle.dav_parts.specs.Fields.{values_of};
ghost use Rattle.dav_wire.specs.ResponseFrames.{now_of, single_length, body_count, is_too_long, frame_from, frame_of};

use crate::limits::FIELD_LIMIT;
use crate::outcome::{Outcome, outcome_of};
use dav_parts::{FieldValue, field_value, read_moment};
use httparse::spans::HeaderSpan;
use jop_base::read_decimal;
use jop_target::{BLOB_LIMIT, Call};

/// What the head of a response tells of what follows it.
#[derive(Clone, Copy, Debug, PartialEq, Eq)]
pub enum Frame {
    /// That the response is none to this call.
    Unreadable,
    /// That the file is longer than its limit, by its length in bytes.
    TooLong(u64),
    /// The moment in milliseconds since 1970, what is told, and how many bytes the body has.
    Body(u64, Outcome, u64),
}

/// The one date of a head, in milliseconds since 1970.
fn now_of(text: &[u8], fields: &[HeaderSpan]) -> Option<u64>
    requires { All (IsHeaderWithin (length text.now)) fields.now }
    ensures { result ≡ now_of (values_of (codes "date") (map (header_bytes text.now) fields.now)) }
{
    match field_value(text, fields, b"date") {
        FieldValue::Single(value) => read_moment(value),
        _ => None,
    }
}

/// The one length of a head.
fn count_of(text: &[u8], fields: &[HeaderSpan]) -> Option<u64>
    requires { All (IsHeaderWithin (length text.now)) fields.now }
    ensures { result ≡ single_length
        (values_of (codes "content-length") (map (header_bytes text.now) fields.now)) }
{
    match field_value(text, fields, b"content-length") {
        FieldValue::Single(value) => read_decimal(value),
        _ => None,
    }
}

/// How long the body is.
fn body_count(status: u16, text: &[u8], fields: &[HeaderSpan]) -> Option<u64>
    requires { All (IsHeaderWithin (length text.now)) fields.now }
    ensures { result ≡ body_count status (map (header_bytes text.now) fields.now) }
{
    if status == 204 {
        Some(0)
    } else {
        count_of(text, fields)
    }
}

fn is_too_long(outcome: Outcome, count: u64) -> bool
    ensures { result ≡ is_too_long outcome count }
{
    match outcome {
        Outcome::Content(limit) => limit < count,
        Outcome::Blob => BLOB_LIMIT < count,
        _ => false,
    }
}

fn frame_from(now: Option<u64>, outcome: Outcome, count: Option<u64>) -> Frame
    ensures { result ≡ frame_from now outcome count }
{
    match (now, outcome, count) {
        (Some(_), Outcome::Other, Some(_)) => Frame::Unreadable,
        (Some(now), outcome, Some(count)) => {
            if is_too_long(outcome, count) {
                Frame::TooLong(count)
            } else {
                Frame::Body(now, outcome, count)
            }
        }
        _ => Frame::Unreadable,
    }
}

/// What a head tells of the reply to a call. Its fields stand at these places of its text.
pub(crate) fn frame_of(call: &Call, status: u16, text: &[u8], fields: &[HeaderSpan]) -> Frame
    requires { All (IsHeaderWithin (length text.now)) fields.now }
    ensures { result ≡ frame_of call.now status (map (header_bytes text.now) fields.now) }
{
    if fields.len() > FIELD_LIMIT {
        return Frame::Unreadable;
    }
    let FieldValue::Absent = field_value(text, fields, b"transfer-encoding") else {
        return Frame::Unreadable;
    };
    frame_from(
        now_of(text, fields),
        outcome_of(call, status),
        body_count(status, text, fields),
    )
}

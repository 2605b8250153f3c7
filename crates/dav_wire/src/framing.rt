ghost use Rattle.std.specs.Prelude.{◌≡◌, length, map, All};
ghost use Rattle.httparse.specs.Spans.{IsHeaderWithin, header_bytes};
ghost use Rattle.dav_wire.specs.Requests.{is_put, framing_of_number, framing_of};

use crate::limits::FIELD_LIMIT;
use dav_parts::{FieldValue, field_value, put_limit};
use httparse::spans::HeaderSpan;
use jop_base::read_decimal;

/// What the head of a request says of its length.
#[derive(Clone, Copy, Debug, PartialEq, Eq)]
pub(crate) enum Framing {
    /// That the request is refused with this status, and the connection closed.
    Refused(u16),
    /// That a body of so many bytes follows.
    Body(u64),
}

fn is_put(method: &[u8]) -> bool
    ensures { result ≡ is_put method.now }
{
    method == b"PUT".as_slice()
}

/// What a length says, read or unreadable, under a limit.
fn framing_of_number(number: Option<u64>, limit: u64) -> Framing
    ensures { result ≡ framing_of_number limit number }
{
    match number {
        None => Framing::Refused(400),
        Some(number) if limit < number => Framing::Refused(413),
        Some(number) => Framing::Body(number),
    }
}

/// What a head says. Its fields stand at these places of its text.
pub(crate) fn framing_of(
    method: &[u8],
    target: &[u8],
    text: &[u8],
    fields: &[HeaderSpan],
) -> Framing
    requires { All (IsHeaderWithin (length text.now)) fields.now }
    ensures { result ≡ framing_of method.now target.now (map (header_bytes text.now) fields.now) }
{
    if fields.len() > FIELD_LIMIT {
        return Framing::Refused(400);
    }
    let FieldValue::Absent = field_value(text, fields, b"transfer-encoding") else {
        return Framing::Refused(400);
    };
    let puts = is_put(method);
    match field_value(text, fields, b"content-length") {
        FieldValue::Absent if puts => Framing::Refused(400),
        FieldValue::Absent => Framing::Body(0),
        FieldValue::Single(value) => {
            let limit = if puts { put_limit(target) } else { u64::MAX };
            framing_of_number(read_decimal(value), limit)
        }
        FieldValue::Repeated => Framing::Refused(400),
    }
}

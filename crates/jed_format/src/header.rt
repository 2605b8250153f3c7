ghost use Rattle.std.specs.Prelude.{◌≡◌, ◌<◌, ◌^◌, take, drop, Some, IfSome};
ghost use Rattle.jop_base.specs.Id.{is_id};
ghost use Rattle.jed_format.specs.Chunk.{passing};
ghost use Rattle.jed_format.specs.Jed.{six_of, method_number, length_in, key_id_in, has_size, jed_header, header_in, is_method};

use crate::jed_err::JedErr;
use jed_text::{four_digits, two_digits};
use jop_base::Id;

/// The bytes from a place on.
pub(crate) fn from(text: &[u8], at: usize) -> &[u8]
    ensures { result.now ≡ drop at text.now }
{
    &text[at.min(text.len())..]
}

/// The first bytes, as many as there are up to a number.
fn up_to(text: &[u8], len: usize) -> &[u8]
    ensures { result.now ≡ take len text.now }
{
    &text[..len.min(text.len())]
}

fn method_in(text: &[u8]) -> Option<u8>
    ensures { result ≡ method_number text.now }
{
    if text.len() < 2 {
        return None;
    }
    match two_digits(u16::from(text[0]), u16::from(text[1])) {
        Some(method) => Some(method as u8),
        None => None,
    }
}

fn six_of(high: Option<u16>, low: Option<u16>) -> Option<usize>
    ensures number { result ≡ six_of high low }
    ensures small { IfSome result (λ n. n < 2 ^ 32) }
{
    match (high, low) {
        (Some(high), Some(low)) => Some(65_536 * usize::from(high) + usize::from(low)),
        _ => None,
    }
}

/// The number of the first six hexadecimal digits.
pub(crate) fn length_in(text: &[u8]) -> Option<usize>
    ensures number { result ≡ length_in text.now }
    ensures small { IfSome result (λ n. n < 2 ^ 32) }
{
    if text.len() < 6 {
        return None;
    }
    six_of(
        two_digits(u16::from(text[0]), u16::from(text[1])),
        four_digits(
            u16::from(text[2]),
            u16::from(text[3]),
            u16::from(text[4]),
            u16::from(text[5]),
        ),
    )
}

fn read_id(text: &[u8]) -> Option<Id>
    ensures { result ≡ passing is_id (Some text.now) }
{
    Id::read(text)
}

fn has_size(text: &[u8]) -> bool
    ensures { result ≡ has_size text.now }
{
    match length_in(text) {
        Some(size) => size == 34,
        None => false,
    }
}

/// The header of four fields: whether the first two are right, and what the others read as.
fn header(
    marked: bool,
    sized: bool,
    method: Option<u8>,
    key: Option<Id>,
) -> Result<(u8, Id), JedErr>
    ensures { result ≡ jed_header marked sized method key }
{
    if !marked {
        return Err(JedErr::NotJed { at: 0 });
    }
    if !sized {
        return Err(JedErr::NotJed { at: 5 });
    }
    match (method, key) {
        (None, _) => Err(JedErr::NotJed { at: 11 }),
        (Some(_), None) => Err(JedErr::NotJed { at: 13 }),
        (Some(method), Some(key)) => Ok((method, key)),
    }
}

/// The method and the key, or the place of the first field that isn't as it must be.
pub(crate) fn header_in(text: &[u8]) -> Result<(u8, Id), JedErr>
    ensures { result ≡ header_in text.now }
{
    header(
        up_to(text, 5) == b"JED01".as_slice(),
        has_size(from(text, 5)),
        method_in(from(text, 11)),
        read_id(up_to(from(text, 13), 32)),
    )
}

pub(crate) fn is_method(method: u8) -> bool
    ensures { result ≡ is_method method }
{
    matches!(method, 1..=5 | 7)
}

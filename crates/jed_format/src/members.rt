//! The members of an SJCL object.

ghost use Rattle.std.specs.Prelude.{◌≡◌, IfOk, option_map, codes};
ghost use Rattle.serde_json.specs.View.{view};
ghost use Rattle.jed_format.specs.Chunk.{is_iter, is_key_size, is_tag_size, is_number_one, is_string, string_in, whole_number, number_in, base64_in, passing};

use crate::base64_text::decoded;
use jop_base::Bytes;
use serde_json::Value;
use std::alloc::{AllocError, Global};

pub(crate) fn text_in<'a>(object: &'a Value, name: &str) -> Option<&'a str>
    ensures { option_map (λ s. s.now) result ≡ string_in name.now (view object.now) }
{
    object.get(name)?.as_str()
}

fn number_in(object: &Value, name: &str) -> Option<u64>
    ensures { result ≡ number_in name.now (view object.now) }
{
    object.get(name)?.as_u64()
}

/// The bytes of a member that is a text of base64.
pub(crate) fn bytes_in(
    alloc: Global,
    object: &Value,
    name: &str,
) -> Result<Option<Bytes>, AllocError>
    ensures { IfOk result (λ found. found ≡ base64_in name.now (view object.now)) }
{
    match text_in(object, name) {
        Some(text) => {
            let found = decoded(alloc, text.as_bytes())?;
            Ok(found)
        }
        None => Ok(None),
    }
}

pub(crate) fn iter_in(object: &Value) -> Option<u32>
    ensures { result ≡ passing is_iter (number_in (codes "iter") (view object.now)) }
{
    match number_in(object, "iter") {
        Some(n) if n >= 1 && n <= 100_000 => Some(n as u32),
        _ => None,
    }
}

pub(crate) fn key_size_in(object: &Value) -> Option<u16>
    ensures { result ≡ passing is_key_size (number_in (codes "ks") (view object.now)) }
{
    match number_in(object, "ks") {
        Some(n) if n == 128 || n == 192 || n == 256 => Some(n as u16),
        _ => None,
    }
}

pub(crate) fn tag_size_in(object: &Value) -> Option<u16>
    ensures { result ≡ passing is_tag_size (number_in (codes "ts") (view object.now)) }
{
    match number_in(object, "ts") {
        Some(n) if n == 64 || n == 96 || n == 128 => Some(n as u16),
        _ => None,
    }
}

pub(crate) fn is_one(value: &Value) -> bool
    ensures { result ≡ is_number_one (view value.now) }
{
    match value.as_u64() {
        Some(n) => n == 1,
        None => false,
    }
}

pub(crate) fn is_text(value: &Value, text: &str) -> bool
    ensures { result ≡ is_string text.now (view value.now) }
{
    match value.as_str() {
        Some(s) => s == text,
        None => false,
    }
}

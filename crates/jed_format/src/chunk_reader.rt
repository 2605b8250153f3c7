ghost use Rattle.std.specs.Prelude.{◌≡◌, true, Ok, Err, IfOk, IfErr, IfSome, option_map};
ghost use Rattle.std.specs.Option.{option_map_or};
ghost use Rattle.serde_json.specs.Find.{get};
ghost use Rattle.serde_json.specs.View.{view};
ghost use Rattle.jed_format.specs.Chunk.{is_chunk, is_string, fits, passing, parts_of, chunk_of, json_value, chunk_in};
ghost use Rattle.jed_format.specs.Refusals.{Refuses};

use crate::jed_err::JedErr;
use crate::members::{bytes_in, is_one, is_text, iter_in, key_size_in, tag_size_in, text_in};
use crate::sjcl_chunk::SjclChunk;
use serde_json::Value;
use std::alloc::{AllocError, Global};

/// The JSON value of a text.
fn value_of(alloc: Global, text: &[u8]) -> Result<Option<Value>, AllocError>
    ensures { IfOk result (λ found. option_map view found ≡ json_value text.now) }
{
    match Value::from_slice(alloc, text) {
        Ok(value) => Ok(Some(value)),
        Err(e) if e.is_memory() => Err(AllocError),
        Err(_) => Ok(None),
    }
}

/// Whether a member is this text, if it is there.
fn may_be(object: &Value, name: &str, text: &str) -> bool
    ensures { result ≡ option_map_or (is_string text.now) (get name.now (view object.now)) true }
{
    match object.get(name) {
        Some(value) => is_text(value, text),
        None => true,
    }
}

/// Whether each member that need not be there is as it must be.
fn fits(object: &Value) -> bool
    ensures { result ≡ fits (view object.now) }
{
    let version = match object.get("v") {
        Some(value) => is_one(value),
        None => true,
    };
    version && may_be(object, "cipher", "aes") && may_be(object, "adata", "")
}

/// None if a member that a chunk is made of isn't there.
fn parts_of(alloc: Global, object: &Value) -> Result<Option<SjclChunk>, AllocError>
    ensures { IfOk result (λ found. found ≡ parts_of (view object.now)) }
{
    let (Some(iter), Some(ks), Some(ts)) = (
        iter_in(object),
        key_size_in(object),
        tag_size_in(object),
    ) else {
        return Ok(None);
    };
    let Some(iv) = bytes_in(alloc, object, "iv")? else {
        return Ok(None);
    };
    let Some(salt) = bytes_in(alloc, object, "salt")? else {
        return Ok(None);
    };
    let Some(ct) = bytes_in(alloc, object, "ct")? else {
        return Ok(None);
    };
    Ok(Some(SjclChunk {
        iv,
        iter,
        ks,
        ts,
        salt,
        ct,
    }))
}

fn chunk_of(alloc: Global, object: &Value) -> Result<Option<SjclChunk>, AllocError>
    ensures chunk { IfOk result (λ found. found ≡ chunk_of (view object.now)) }
    ensures valid { IfOk result (λ found. IfSome found (λ chunk. is_chunk chunk ≡ true)) }
{
    if !fits(object) {
        return Ok(None);
    }
    match parts_of(alloc, object)? {
        Some(chunk) if chunk.is_valid() => Ok(Some(chunk)),
        _ => Ok(None),
    }
}

/// The chunk of a text that is an SJCL object in mode `ccm`; `n` is its number among the chunks,
/// counted from 1, and stands in the refusals. `BadChunk` for what is no such object,
/// `UnsupportedMode` for one in another mode.
#[tactic(auto, unfolding(crate::specs::Chunk::chunk_in))]
pub fn read_chunk(alloc: Global, text: &[u8], n: u64) -> Result<SjclChunk, JedErr>
    ensures ok { IfOk result (λ chunk. chunk_in text.now n ≡ Ok chunk) }
    ensures err { IfErr result (Refuses (chunk_in text.now n)) }
    ensures valid { IfOk result (λ chunk. is_chunk chunk ≡ true) }
{
    let Some(object) = value_of(alloc, text)? else {
        return Err(JedErr::BadChunk { n });
    };
    let Some(chunk) = chunk_of(alloc, &object)? else {
        return Err(JedErr::BadChunk { n });
    };
    match text_in(&object, "mode") {
        Some("ccm") => Ok(chunk),
        Some(_) => Err(JedErr::UnsupportedMode { n }),
        None => Err(JedErr::BadChunk { n }),
    }
}

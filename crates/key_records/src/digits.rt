ghost use Rattle.std.specs.Prelude.{◌≡◌, true, Ok, IfOk, IfErr, IfSome};
ghost use Rattle.jed_format.specs.Chunk.{is_chunk};
ghost use Rattle.key_records.specs.Reading.{chunk_at};
ghost use Rattle.key_records.specs.SealedBytes.{by_chunk, key_digits};
ghost use Rattle.master_keys.specs.Refusing.{IsMeant};

use crate::reading::chunk_at;
use jed_format::{SjclChunk, open_chunk};
use jop_base::{Bytes, Id, Text};
use master_keys::KeyErr;
use std::alloc::Global;
use sync_info::Info;

/// What a key's record opens to under a password.
fn open_record(
    alloc: Global,
    password: &Text,
    key: &Id,
    chunk: &Option<SjclChunk>,
) -> Result<Bytes, KeyErr>
    requires { IfSome chunk.now (λ chunk. is_chunk chunk ≡ true) }
    ensures ok { IfOk result (λ digits. by_chunk password.now key.now chunk.now ≡ Ok digits) }
    ensures err { IfErr result (IsMeant (by_chunk password.now key.now chunk.now)) }
{
    let Some(chunk) = chunk else {
        return Err(KeyErr::NoKey(Some(*key)));
    };
    match open_chunk(alloc, chunk, password.as_slice())? {
        Some(digits) => Ok(digits),
        None => Err(KeyErr::BadPassword(*key)),
    }
}

/// The same of the key of an id in an info.
fn digits_under(alloc: Global, info: &Info, password: &Text, key: &Id) -> Result<Bytes, KeyErr>
    ensures ok { IfOk result (λ digits. by_chunk password.now key.now
        (chunk_at info.now.keys key.now) ≡ Ok digits) }
    ensures err { IfErr result (IsMeant (by_chunk password.now key.now
        (chunk_at info.now.keys key.now))) }
{
    let chunk = chunk_at(alloc, info.keys.as_slice(), key)?;
    let digits = open_record(alloc, password, key, &chunk)?;
    Ok(digits)
}

/// The digits of a key. `NoKey` if there is no password or no readable record of the key, `BadPassword` if that
/// doesn't open under the password.
#[tactic(auto, using(crate::proofs::Settled::digits_by_chunk, crate::proofs::Settled::digits_without))]
pub(crate) fn key_digits(
    alloc: Global,
    info: &Info,
    password: &Option<Text>,
    key: &Id,
) -> Result<Bytes, KeyErr>
    ensures ok { IfOk result (λ digits. key_digits info.now password.now key.now ≡ Ok digits) }
    ensures err { IfErr result (IsMeant (key_digits info.now password.now key.now)) }
{
    match password {
        Some(password) => digits_under(alloc, info, password, key),
        None => Err(KeyErr::NoKey(Some(*key))),
    }
}

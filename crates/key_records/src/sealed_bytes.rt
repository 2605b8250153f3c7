ghost use Rattle.std.specs.Prelude.{◌≡◌, true, Ok, IfOk, IfErr};
ghost use Rattle.std.specs.List.{AllPass};
ghost use Rattle.jed_format.specs.Chunk.{is_chunk};
ghost use Rattle.jed_format.specs.Jed.{jed_in};
ghost use Rattle.jed_format.specs.Opening.{blob_in};
ghost use Rattle.key_records.specs.SealedBytes.{opened_bytes};
ghost use Rattle.master_keys.specs.Refusing.{IsMeant, by_jed};

use crate::digits::key_digits;
use jed_format::{Jed, open_blob, read_jed};
use jop_base::{Bytes, Text};
use master_keys::KeyErr;
use std::alloc::Global;
use sync_info::Info;

/// The sealed text that bytes are.
fn jed_of(alloc: Global, text: &Bytes) -> Result<Jed, KeyErr>
    ensures ok { IfOk result (λ jed. jed_in text.now ≡ Ok jed) }
    ensures err { IfErr result (IsMeant (by_jed (jed_in text.now))) }
    ensures valid { IfOk result (λ jed. AllPass is_chunk jed.chunks) }
{
    let jed = read_jed(alloc, text.as_slice())?;
    Ok(jed)
}

fn blob_of(alloc: Global, jed: &Jed, digits: &Bytes) -> Result<Bytes, KeyErr>
    requires { AllPass is_chunk jed.now.chunks }
    ensures ok { IfOk result (λ blob. blob_in digits.now jed.now ≡ Ok blob) }
    ensures err { IfErr result (IsMeant (by_jed (blob_in digits.now jed.now))) }
{
    let blob = open_blob(alloc, jed, digits.as_slice())?;
    Ok(blob)
}

/// What the sealed bytes of a resource open to, under a password for the key that they name. The refusals
/// come in this order: `Jed` if the bytes are no sealed text; `NoKey` if there is no password, or no
/// readable record of their key in the info; `BadPassword` if that record doesn't open under it; `Jed`
/// (`BadTag` or `BadChunk`) if the bytes don't open.
pub fn open_sealed_bytes(
    alloc: Global,
    info: &Info,
    password: &Option<Text>,
    text: &Bytes,
) -> Result<Bytes, KeyErr>
    ensures ok { IfOk result (λ bytes. opened_bytes info.now password.now text.now ≡ Ok bytes) }
    ensures err { IfErr result (IsMeant (opened_bytes info.now password.now text.now)) }
{
    let jed = jed_of(alloc, text)?;
    let digits = key_digits(alloc, info, password, &jed.key)?;
    let blob = blob_of(alloc, &jed, &digits)?;
    Ok(blob)
}

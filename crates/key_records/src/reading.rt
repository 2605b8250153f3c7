ghost use Rattle.std.specs.Prelude.{◌≡◌, ◌≢◌, true, IfOk, IfSome, OnOk};
ghost use Rattle.std.specs.Result.{result_ok};
ghost use Rattle.jed_format.specs.Chunk.{chunk_in, is_chunk};
ghost use Rattle.key_records.specs.Reading.{chunk_at, chunk_if};

use jed_format::{JedErr, SjclChunk, read_chunk};
use jop_base::{Id, Text};
use std::alloc::{AllocError, Global};
use sync_info::KeyRecord;

/// Nothing, unless memory ran out.
fn refused(error: JedErr) -> Result<(), AllocError>
    ensures { OnOk result (error ≢ JedErr.NoMemory) }
{
    match error {
        JedErr::NoMemory => Err(AllocError),
        _ => Ok(()),
    }
}

/// What a record is sealed as, if that is readable.
#[tactic(auto, using(master_keys::proofs::Causes::refused_none))]
fn read_content(alloc: Global, content: &Text) -> Result<Option<SjclChunk>, AllocError>
    ensures chunk { IfOk result (λ found. found ≡ result_ok (chunk_in content.now 1)) }
    ensures valid { IfOk result (λ found. IfSome found (λ chunk. is_chunk chunk ≡ true)) }
{
    match read_chunk(alloc, content.as_slice(), 1) {
        Ok(chunk) => Ok(Some(chunk)),
        Err(error) => {
            refused(error)?;
            Ok(None)
        }
    }
}

/// The same of a record of this id; of another one nothing.
fn read_if(alloc: Global, known: &KeyRecord, id: &Id) -> Result<Option<SjclChunk>, AllocError>
    ensures chunk { IfOk result (λ found. found ≡ chunk_if id.now known.now) }
    ensures valid { IfOk result (λ found. IfSome found (λ chunk. is_chunk chunk ≡ true)) }
{
    if known.id != *id {
        return Ok(None);
    }
    let found = read_content(alloc, &known.content)?;
    Ok(found)
}

/// What the first readable record of an id is sealed as.
pub(crate) fn chunk_at(
    alloc: Global,
    keys: &[KeyRecord],
    id: &Id,
) -> Result<Option<SjclChunk>, AllocError>
    ensures chunk { IfOk result (λ found. found ≡ chunk_at keys.now id.now) }
    ensures valid { IfOk result (λ found. IfSome found (λ chunk. is_chunk chunk ≡ true)) }
{
    for known in keys {
        match read_if(alloc, known, id)? {
            Some(chunk) => return Ok(Some(chunk)),
            None => {}
        }
    }
    Ok(None)
}

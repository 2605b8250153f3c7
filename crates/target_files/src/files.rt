ghost use Rattle.std.specs.Prelude.{◌≤◌, IfOk, IfSome};
ghost use Rattle.target_files.specs.Reading.{IsWithin};

use crate::named::{Named, open_named};
use crate::trouble::Trouble;
use std::alloc::Global;
use std::fs::OpenOptions;
use std::io::Read;
use std::rt::Files;

/// What a file holds, or its length where that is too much.
#[derive(Drop)]
pub(crate) enum Reading {
    Whole(Vec<u8>),
    TooLarge(u64),
}

/// Reads a file. None where there is none. It reads as many bytes as the file was long at first, and none of a file
/// that is longer than the limit.
pub(crate) fn read<R: Files>(
    rt: &R,
    alloc: Global,
    name: &str,
    limit: u64,
) -> Result<Option<Reading>, Trouble>
    ensures { IfOk result (λ reading. IfSome reading (IsWithin limit)) }
{
    let mut how = OpenOptions::new();
    how.read(true);
    match open_named(rt, &how, name)? {
        Named::Nothing | Named::NoFile => Ok(None),
        Named::File(mut file, metadata) => Ok(Some(read_whole(
            alloc,
            &mut file,
            metadata.len(),
            limit,
        )?)),
    }
}

/// Reads a file that is so long.
fn read_whole<F: Read>(
    alloc: Global,
    file: &mut F,
    len: u64,
    limit: u64,
) -> Result<Reading, Trouble>
    ensures { IfOk result (IsWithin limit) }
{
    if len > limit {
        return Ok(Reading::TooLarge(len));
    }
    let mut bytes = vec![in alloc; 0; len as usize]?;
    file.read_exact(&mut bytes)?;
    Ok(Reading::Whole(bytes))
}

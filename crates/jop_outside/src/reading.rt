ghost use Rattle.std.specs.Prelude.{◌≡◌, ◌<◌, ◌≤◌, IfOk, length, true};
ghost use Rattle.jop_outside.specs.Outside.{SourceNow};
ghost use Rattle.jop_outside.specs.Reading.{IsAt, IsRestOf, ReadsAll, ReadsOn};

use crate::failed::Failed;
use crate::source::Source;
use jop_base::Bytes;
use std::alloc::{AllocError, Global};

/// How many bytes are asked for at once.
const PIECE: usize = 65_536;

/// Why a source wasn't read to its end.
#[derive(Clone, Copy, Debug, PartialEq, Eq)]
pub enum ReadErr {
    Fault,
    /// It is longer than its limit. One byte more than the limit was read.
    TooLarge,
    NoMemory,
}

impl From<AllocError> for ReadErr {
    ghost use Rattle.std.specs.Prelude.{◌≡◌};
    ghost use Rattle.jop_outside.specs.declared.reading.ReadErr.TheVariants.{NoMemory};

    ghost from_gives = { λ _ e. e ≡ NoMemory };

    fn from(_error: AllocError) -> ReadErr {
        ReadErr::NoMemory
    }
}

impl From<Failed> for ReadErr {
    ghost use Rattle.std.specs.Prelude.{◌≡◌};
    ghost use Rattle.jop_outside.specs.declared.reading.ReadErr.TheVariants.{Fault};

    ghost from_gives = { λ _ e. e ≡ Fault };

    fn from(_error: Failed) -> ReadErr {
        ReadErr::Fault
    }
}

/// All that is left of a source. `TooLarge` when that is more bytes than the limit. It takes time linear in the bytes.
pub fn read_to_end<S: Source>(alloc: Global, source: &mut S, limit: usize) -> Result<Bytes, ReadErr>
    ensures read { ReadsAll limit (S.state source.old) result (S.state source.new) }

    // Whatever it comes to.
    ensures rest { IsRestOf limit (S.state source.old).left (S.state source.new).left }
    ensures later { (S.state source.old).faults ≤ (S.state source.new).faults }
{
    let mut bytes = Bytes::new(alloc);
    let mut piece = [0; PIECE];
    while bytes.len() <= limit {
        if !read_more(source, limit, &mut piece, &mut bytes)? {
            return Ok(bytes);
        }
    }
    Err(ReadErr::TooLarge)
}

/// Reads a piece more, and answers whether there was one. With it the bytes are at most one more than the limit.
fn read_more<S: Source>(
    source: &mut S,
    limit: usize,
    piece: &mut [u8; PIECE],
    bytes: &mut Bytes,
) -> Result<bool, ReadErr>
    requires { length bytes.old ≤ limit }

    // Wherever the reading began.
    ensures read { (start : SourceNow) → IsAt limit start bytes.old (S.state source.old)
        → ReadsOn limit start result bytes.new (S.state source.new) }
    ensures rest { (start : SourceNow) → IsAt limit start bytes.old (S.state source.old)
        → IsRestOf limit start.left (S.state source.new).left }
    ensures later { (S.state source.old).faults ≤ (S.state source.new).faults }
    ensures more { IfOk result (λ more. more ≡ true → length bytes.old < length bytes.new) }
{
    let room = (limit - bytes.len()).min(PIECE - 1) + 1;
    let count = source.read(&mut piece[..room])?;
    bytes.append(&piece[..count])?;
    Ok(count != 0)
}

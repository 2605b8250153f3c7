ghost use Rattle.std.specs.Prelude.{◌++◌, Ok};
ghost use Rattle.jop_outside.specs.Writing.{WritesAll};
ghost use Rattle.jop_status.specs.Outcomes.{Emits};
ghost use Rattle.jop_status.specs.Pieces.{pieces_text};

use crate::piece::{Piece, write_pieces};
use crate::status::Status;
use jop_outside::{Failed, Sink, write_whole};

/// Prints the text that a command came to, in pieces. `SinkFault` if a write fails: then a prefix of it
/// is printed.
pub fn emit<O: Sink>(out: &mut O, pieces: &[Piece]) -> Status
    ensures { Emits (Ok (pieces_text pieces.now)) (O.state out.old) result (O.state out.new) }
{
    match write_pieces(out, pieces) {
        Ok(()) => Status::Ok,
        Err(_) => Status::SinkFault,
    }
}

/// Prints the text that a command came to, given as three parts in a row. `SinkFault` as of [`emit`].
pub fn emit_three<O: Sink>(out: &mut O, first: &[u8], second: &[u8], third: &[u8]) -> Status
    ensures { Emits (Ok (first.now ++ (second.now ++ third.now)))
        (O.state out.old) result (O.state out.new) }
{
    match write_three(out, first, second, third) {
        Ok(()) => Status::Ok,
        Err(_) => Status::SinkFault,
    }
}

/// Writes three parts in a row. After `Failed` a prefix of them was written.
fn write_three<O: Sink>(
    out: &mut O,
    first: &[u8],
    second: &[u8],
    third: &[u8],
) -> Result<(), Failed>
    ensures { WritesAll (O.state out.old) (first.now ++ (second.now ++ third.now))
        result (O.state out.new) }
{
    write_whole(out, first)?;
    write_whole(out, second)?;
    write_whole(out, third)
}

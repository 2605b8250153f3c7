ghost use Rattle.std.specs.Prelude.{◌≡◌, IfOk, Some};
ghost use Rattle.std.specs.Str.{IsUtf8};
ghost use Rattle.local_commands.specs.Stages.{TakesInput};

use crate::local_err::LocalErr;
use client::Outside;
use jop_base::{Bytes, Text};
use jop_outside::ReadErr;
use std::alloc::{AllocError, Global};

/// How an input is taken.
#[derive(Clone, Copy, Debug, PartialEq, Eq)]
pub(crate) struct Intake {
    /// The most bytes of it.
    pub(crate) limit: u32,
    /// Whether it has to be a text.
    pub(crate) text: bool,
}

/// The most bytes of a body that is taken: 1 MiB.
pub const BODY_LIMIT: usize = 1_048_576;

/// The input as the body of a note.
pub(crate) const BODY: Intake = Intake {
    limit: BODY_LIMIT as u32,
    text: true,
};

/// The whole input, or nothing of a command that takes none.
pub(crate) fn take_input<O: Outside>(
    alloc: Global,
    outside: &mut O,
    intake: Option<Intake>,
) -> Result<Bytes, LocalErr>
    ensures takes { TakesInput intake (O.now outside.old) result (O.now outside.new) }
    ensures stays { O.place outside.new ≡ O.place outside.old }
{
    match intake {
        Some(intake) => read_whole(alloc, outside, intake),
        None => Ok(Bytes::new(alloc)),
    }
}

fn read_whole<O: Outside>(alloc: Global, outside: &mut O, intake: Intake) -> Result<Bytes, LocalErr>
    ensures takes { TakesInput (Some intake) (O.now outside.old) result (O.now outside.new) }
    ensures stays { O.place outside.new ≡ O.place outside.old }
{
    let bytes = match outside.read_input(alloc, intake.limit as usize) {
        Ok(bytes) => bytes,
        Err(ReadErr::Fault) => return Err(LocalErr::SourceFault),
        Err(ReadErr::TooLarge) => return Err(LocalErr::TooLarge(u64::from(intake.limit) + 1)),
        Err(ReadErr::NoMemory) => return Err(LocalErr::NoMemory),
    };
    if intake.text && std::str::from_utf8(bytes.as_slice()).is_err() {
        return Err(LocalErr::NotText);
    }
    Ok(bytes)
}

/// The text of an input that is one.
pub(crate) fn text_of(alloc: Global, input: Bytes) -> Result<Text, AllocError>
    requires { IsUtf8 input }
    ensures { IfOk result (λ text. text ≡ input) }
{
    match Text::read(alloc, input.as_slice())? {
        Some(text) => Ok(text),
        None => unreachable!(),
    }
}

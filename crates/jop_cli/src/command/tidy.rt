ghost use Rattle.std.specs.Prelude.{◌≡◌, Some};
ghost use Rattle.jop_cli.specs.Commands.Tidy.{EmitsTidied, TIDY_LIMIT};
ghost use Rattle.jop_cli.specs.Run.{Acts, IsFreshOutside};
ghost use Rattle.jop_words.specs.declared.verb.Verb.TheVariants as verbs;

use crate::world::World;
use item_text::{BadItem, ItemErr, canonical_parts};
use jop_outside::ReadErr;
use jop_status::Status;
use std::alloc::Global;

/// The most bytes of an input that is tidied: 16 MiB.
pub(crate) const TIDY_LIMIT: usize = 16_777_216;

/// Why an input gave no canonical text.
#[derive(Clone, Copy, Debug, PartialEq, Eq)]
pub(crate) enum TidyErr {
    /// A read failed.
    Fault,
    /// It is longer than 16 MiB.
    TooLarge,
    /// It is no text of an item. This is the first reason.
    Bad(BadItem),
    NoMemory,
}

impl From<ReadErr> for TidyErr {
    ghost use Rattle.std.specs.Prelude.{◌≡◌};
    ghost use Rattle.jop_cli.specs.Commands.Tidy.{read_err};

    ghost from_gives = { λ r e. e ≡ read_err r };

    fn from(error: ReadErr) -> TidyErr {
        match error {
            ReadErr::Fault => TidyErr::Fault,
            ReadErr::TooLarge => TidyErr::TooLarge,
            ReadErr::NoMemory => TidyErr::NoMemory,
        }
    }
}

impl From<ItemErr> for TidyErr {
    ghost use Rattle.std.specs.Prelude.{◌≡◌};
    ghost use Rattle.jop_cli.specs.Commands.Tidy.{item_err};

    ghost from_gives = { λ i e. e ≡ item_err i };

    fn from(error: ItemErr) -> TidyErr {
        match error {
            ItemErr::Bad(bad) => TidyErr::Bad(bad),
            ItemErr::NoMemory => TidyErr::NoMemory,
        }
    }
}

impl From<TidyErr> for Status {
    ghost use Rattle.std.specs.Prelude.{◌≡◌};
    ghost use Rattle.jop_cli.specs.Commands.Tidy.{tidy_status};

    ghost from_gives = { λ t e. e ≡ tidy_status t };

    fn from(error: TidyErr) -> Status {
        match error {
            TidyErr::Fault => Status::SourceFault,
            TidyErr::TooLarge => Status::TooLarge(TIDY_LIMIT as u64 + 1),
            TidyErr::Bad(bad) => Status::BadItem(bad),
            TidyErr::NoMemory => Status::NoMemory,
        }
    }
}

/// Reads the text of an item from the input and prints its canonical text, with nothing added. `Fault`
/// and `TooLarge` come before `Bad`.
pub(crate) fn obey<W: World>(alloc: Global, world: &mut W) -> Status
    requires { IsFreshOutside (W.now world.old) }
    ensures acts { Acts (Some verbs.Tidy) (W.now world.old) result (W.now world.new) }
    ensures stays { W.place world.new ≡ W.place world.old }
{
    match world.read_input(alloc, TIDY_LIMIT) {
        Ok(bytes) => tidy_bytes(alloc, world, bytes.as_slice()),
        Err(error) => Status::from(TidyErr::from(error)),
    }
}

/// The same of the bytes of an item. Its body is printed from where it stands among them.
fn tidy_bytes<W: World>(alloc: Global, world: &mut W, bytes: &[u8]) -> Status
    ensures tidies { EmitsTidied bytes.now (W.now world.old) result (W.now world.new) }
    ensures stays { W.place world.new ≡ W.place world.old }
{
    match canonical_parts(alloc, bytes) {
        Ok((before, body, behind)) => {
            world.emit_three(before.as_slice(), body.as_bytes(), behind.as_slice())
        }
        Err(error) => Status::from(TidyErr::from(error)),
    }
}

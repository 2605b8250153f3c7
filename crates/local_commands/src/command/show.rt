ghost use Rattle.std.specs.Prelude.{◌≡◌, None};
ghost use Rattle.std.specs.List.{find};
ghost use Rattle.std.specs.Option.{option_copied};
ghost use Rattle.local_store.specs.Sound.{IsSound};
ghost use Rattle.local_commands.specs.Commands.Clear.{ChecksNumber, has_number};
ghost use Rattle.local_commands.specs.Commands.Show.{MakesShown};
ghost use Rattle.local_commands.specs.Stages.{MakesOr};

use crate::local_err::LocalErr;
use crate::work::{Work, only_text};
use item_text::write_item;
use local_store::{ConflictNote, Tables};
use std::alloc::Global;

/// Prints the text of the conflict note of this number, with nothing added.
pub(crate) fn make_text(alloc: Global, tables: &Tables, number: u64) -> Result<Work, LocalErr>
    requires sound { IsSound tables.now }
    requires passed { ChecksNumber tables.now.conflicts number None }
    ensures { MakesOr (MakesShown (find (has_number number) tables.now.conflicts)) result }
{
    match note_of(tables.conflicts.as_slice(), number) {
        Some(note) => Ok(only_text(alloc, write_item(alloc, &note.item)?)),
        None => Err(LocalErr::NoConflict(number)),
    }
}

/// The first conflict note of this number.
fn note_of(notes: &[ConflictNote], number: u64) -> Option<&ConflictNote>
    ensures { option_copied result ≡ find (has_number number) notes.now }
{
    for note in notes {
        if note.number == number {
            return Some(note);
        }
    }
    None
}

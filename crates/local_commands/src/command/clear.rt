ghost use Rattle.std.specs.Prelude.{◌≡◌, [], Ok};
ghost use Rattle.std.specs.List.{list_any};
ghost use Rattle.local_store.specs.declared.change.Change.TheVariants.{Cleared};
ghost use Rattle.local_commands.specs.Commands.Clear.{ChecksNumber, has_number};
ghost use Rattle.local_commands.specs.Running.{one_change};
ghost use Rattle.local_commands.specs.Stages.{ChecksOr, MakesOr};

use crate::local_err::LocalErr;
use crate::work::{Work, one_change};
use jop_base::Bytes;
use local_store::{Change, ConflictNote, Tables};
use std::alloc::Global;

/// `NoConflict` exactly if there is no conflict note of this number.
pub(crate) fn check_number(tables: &Tables, number: u64) -> Result<(), LocalErr>
    ensures { ChecksOr (ChecksNumber tables.now.conflicts number) result }
{
    if !has_number(tables.conflicts.as_slice(), number) {
        return Err(LocalErr::NoConflict(number));
    }
    Ok(())
}

/// Takes out the conflict notes of this number, and prints nothing.
pub(crate) fn make_clear(alloc: Global, number: u64) -> Result<Work, LocalErr>
    ensures { MakesOr (λ made. made ≡ Ok (one_change (Cleared number) [])) result }
{
    Ok(one_change(alloc, Change::Cleared(number), Bytes::new(alloc))?)
}

fn has_number(notes: &[ConflictNote], number: u64) -> bool
    ensures { result ≡ list_any (has_number number) notes.now }
{
    notes.iter().any(|note| note.number == number)
}

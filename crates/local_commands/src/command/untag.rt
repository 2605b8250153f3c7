ghost use Rattle.std.specs.Prelude.{◌≡◌, Ok};
ghost use Rattle.local_changes.specs.Tagging.{unlinking};
ghost use Rattle.local_commands.specs.Commands.Tag.{tag_work};
ghost use Rattle.local_commands.specs.Commands.Untag.{ChecksUntag};
ghost use Rattle.local_commands.specs.Stages.{ChecksOr, MakesOr};

use crate::command::tag::{all_changes, check_note};
use crate::local_err::LocalErr;
use crate::work::Work;
use jop_base::Id;
use local_changes::{has_link, unlinked};
use local_store::Tables;
use std::alloc::Global;

/// `NotFound` exactly if no row of this id is a note, or else if none says that it bears the tag.
pub(crate) fn check_untag(tables: &Tables, note: &Id, tag: &Id) -> Result<(), LocalErr>
    ensures { ChecksOr (ChecksUntag tables.now note.now tag.now) result }
{
    check_note(tables, note)?;
    if !has_link(tables.rows.as_slice(), note, tag) {
        return Err(LocalErr::NotFound(*tag));
    }
    Ok(())
}

/// Removes each row that says that the note bears the tag, and prints nothing.
pub(crate) fn make_untag(
    alloc: Global,
    tables: &Tables,
    note: Id,
    tag: Id,
) -> Result<Work, LocalErr>
    ensures { MakesOr (λ made. made ≡ Ok (tag_work (unlinking note tag tables.now.rows))) result }
{
    let changes = unlinked(alloc, tables.rows.as_slice(), &note, &tag)?;
    Ok(all_changes(alloc, changes)?)
}

ghost use Rattle.std.specs.Prelude.{◌≤◌, option_map, Some, None, false, length};
ghost use Rattle.jop_base.specs.Times.{last_time};
ghost use Rattle.local_changes.specs.Amending.{IsFitAmendment, plain_entry};
ghost use Rattle.local_store.specs.Tables.{row_at};
ghost use Rattle.local_commands.specs.Books.{is_within, missing_book};
ghost use Rattle.local_store.specs.Sound.{IsSound};
ghost use Rattle.local_commands.specs.Commands.Amend.{ChecksAmend, ChecksMove, MakesAmend, amend_plan};
ghost use Rattle.local_commands.specs.Stages.{ChecksOr, MakesOr};
ghost use Rattle.local_commands.specs.declared.local_err.LocalErr.TheVariants.{NotFound};

use crate::books::{check_book, is_within};
use crate::drawing::Drawing;
use crate::local_err::LocalErr;
use crate::needs::Needs;
use crate::work::{Work, one_change};
use item_kinds::updated_of;
use jop_base::{Bytes, Id, MAX_TIME};
use local_changes::{Amendment, amended, plain_entry};
use local_store::Tables;
use std::alloc::Global;

/// What it needs beside the tables.
pub(crate) const NEEDS: Needs = Needs {
    intake: None,
    clock: true,
    draws: Drawing::NoId,
};

/// `NotFound` exactly if no row of this id is a note or a notebook, `Sealed` exactly if it is sealed, and
/// `TimeEnd` exactly if it was last changed at [`MAX_TIME`].
pub(crate) fn check_entry(tables: &Tables, id: &Id) -> Result<(), LocalErr>
    ensures { ChecksOr (ChecksAmend id.now None false (plain_entry id.now (row_at tables.now id.now)))
        result }
{
    let item = plain_entry(tables, id)?;
    if updated_of(item) == MAX_TIME {
        return Err(LocalErr::TimeEnd(*id));
    }
    Ok(())
}

/// `NotFound` exactly if no row of `book` is a notebook, then as [`check_entry`], and then `BelowItself` exactly
/// if `book` is the notebook that is moved, or stands below it.
pub(crate) fn check_move(tables: &Tables, id: &Id, book: &Id) -> Result<(), LocalErr>
    ensures { ChecksOr (ChecksMove tables.now id.now book.now) result }
{
    check_book(tables, &Some(*book))?;
    check_entry(tables, id)?;
    if is_within(tables, id, book) {
        return Err(LocalErr::BelowItself(*id));
    }
    Ok(())
}

/// Gives a note or a notebook another title or another notebook, and prints nothing. `TooLarge` exactly if its
/// text is.
pub(crate) fn make_amend(
    alloc: Global,
    tables: &Tables,
    id: Id,
    amendment: Amendment,
    now: u64,
) -> Result<Work, LocalErr>
    requires sound { IsSound tables.now }
    requires fit { IsFitAmendment amendment }
    requires passed { (amend_plan id amendment).Checks tables.now None }
    requires time { now ≤ last_time }
    ensures { MakesOr (MakesAmend id amendment now (plain_entry id (row_at tables.now id))) result }
{
    let change = amended(alloc, tables, id, amendment, now)?;
    Ok(one_change(alloc, change, Bytes::new(alloc))?)
}

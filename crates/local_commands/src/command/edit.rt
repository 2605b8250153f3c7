ghost use Rattle.std.specs.Prelude.{IfSome};
ghost use Rattle.item_kinds.specs.Made.{IsLine};
ghost use Rattle.local_changes.specs.Editing.{plain_note};
ghost use Rattle.local_store.specs.Tables.{row_at};
ghost use Rattle.local_commands.specs.Commands.Edit.{ChecksNote, edit_plan};
ghost use Rattle.local_commands.specs.Stages.{ChecksOr, IsReadyFor, MakesWork};

use crate::drawing::Drawing;
use crate::intake::{BODY, text_of};
use crate::local_err::LocalErr;
use crate::needs::Needs;
use crate::supply::Supply;
use crate::work::{Work, one_change};
use item_kinds::updated_of;
use jop_base::{Bytes, Id, MAX_TIME, Text};
use local_changes::{edited, plain_note};
use local_store::Tables;
use std::alloc::Global;

/// What it needs beside the tables.
pub(crate) const NEEDS: Needs = Needs {
    intake: Some(BODY),
    clock: true,
    draws: Drawing::NoId,
};

/// `NotFound` exactly if no row of this id is a note, `Sealed` exactly if it is sealed, and `TimeEnd`
/// exactly if it was last changed at [`MAX_TIME`].
pub(crate) fn check_note(tables: &Tables, id: &Id) -> Result<(), LocalErr>
    ensures { ChecksOr (ChecksNote id.now (plain_note id.now (row_at tables.now id.now))) result }
{
    let item = plain_note(tables, id)?;
    if updated_of(item) == MAX_TIME {
        return Err(LocalErr::TimeEnd(*id));
    }
    Ok(())
}

/// Gives a note another title, if one is given, and the whole input as its body, and prints nothing.
/// `TooLarge` exactly if the note's text is.
pub(crate) fn make_edit(
    alloc: Global,
    tables: &Tables,
    id: Id,
    title: Option<Text>,
    supply: Supply,
) -> Result<Work, LocalErr>
    requires title { IfSome title (λ title. IsLine title) }
    requires ready { IsReadyFor (edit_plan id title) tables.now supply }
    ensures { MakesWork (edit_plan id title) tables.now supply result }
{
    let body = text_of(alloc, supply.input)?;
    let change = edited(alloc, tables, id, title, body, supply.now)?;
    Ok(one_change(alloc, change, Bytes::new(alloc))?)
}

ghost use Rattle.item_kinds.specs.Made.{IsLine};
ghost use Rattle.local_store.specs.Tables.{row_at};
ghost use Rattle.std.specs.Prelude.{◌≡◌, IfOk, map, ◌++◌, OnOk};
ghost use Rattle.local_commands.specs.Commands.Tag.{ChecksNoteAt, tag_plan, tag_work};
ghost use Rattle.local_commands.specs.Stages.{ChecksOr, IsReadyFor, MakesWork};

use crate::act::Act;
use crate::drawing::{Drawing, two_ids};
use crate::local_err::LocalErr;
use crate::needs::Needs;
use crate::supply::Supply;
use crate::work::Work;
use item_kinds::Kind;
use jop_base::{Bytes, Id, Seq, Text};
use local_changes::{has_row, tagged};
use local_store::{Change, Tables};
use std::alloc::{AllocError, Global};

/// What it needs beside the tables.
pub(crate) const NEEDS: Needs = Needs {
    intake: None,
    clock: true,
    draws: Drawing::TwoIds,
};

/// `NotFound` exactly if no row of this id is a note.
pub(crate) fn check_note(tables: &Tables, note: &Id) -> Result<(), LocalErr>
    ensures { ChecksOr (ChecksNoteAt note.now (row_at tables.now note.now)) result }
{
    if !has_row(tables, note, Kind::NOTE) {
        return Err(LocalErr::NotFound(*note));
    }
    Ok(())
}

/// Gives a note the tag of this title, and prints nothing. Two ids are drawn, whether they are used or
/// not.
pub(crate) fn make_tag(
    alloc: Global,
    tables: &Tables,
    note: Id,
    title: Text,
    supply: Supply,
) -> Result<Work, LocalErr>
    requires title { IsLine title }
    requires ready { IsReadyFor (tag_plan note title) tables.now supply }
    ensures { MakesWork (tag_plan note title) tables.now supply result }
{
    let (tag, link) = two_ids(supply.ids);
    let changes = tagged(alloc, tables, tag, link, note, title, supply.now)?;
    Ok(all_changes(alloc, changes)?)
}

/// These changes are made in their order, and nothing is printed.
pub(crate) fn all_changes(alloc: Global, changes: Seq<Change>) -> Result<Work, AllocError>
    ensures { IfOk result (λ work. work ≡ tag_work changes) }
{
    let mut acts = Seq::new(alloc);
    let mut left = changes;
    while !left.is_empty() {
        acts.push(Act::MakeChange(left.remove(0)))?;
    }
    Ok(Work {
        acts,
        text: Bytes::new(alloc),
    })
}

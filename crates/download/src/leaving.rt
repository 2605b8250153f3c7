ghost use Rattle.std.specs.Prelude.{◌≡◌};
ghost use Rattle.download.specs.Downloading.{Closes, Goes, LeavesGone, LeavesOne, is_leaf, is_place};
ghost use Rattle.download.specs.Reading.{EndsIfAllGone, EndsIfGone, Lacks, LacksAll};
ghost use Rattle.law_licences.specs.Items.{is_folder};
ghost use Rattle.law_licences.specs.Views.{Shown};
ghost use Rattle.local_store.specs.Rows.{item_of};
ghost use Rattle.local_store.specs.Tables.{row_at};
ghost use Rattle.session.specs.Parts.{ForEach};
ghost use Rattle.session.specs.Work.{IsAtWork};

use conflicts::{StepErr, folder_gone_changes};
use jop_base::Id;
use local_store::{Change, Row, Tables, is_folder};
use session::Session;
use std::alloc::Global;

/// Whether the row of this id doesn't wait, and is no folder.
fn is_leaf(tables: &Tables, id: &Id) -> bool
    ensures { result ≡ is_leaf (row_at tables.now id.now) }
{
    match tables.rows.at(id) {
        Some(row) => !row.pending && !is_folder(row),
        None => false,
    }
}

/// Whether the row of this id doesn't wait, and is a folder.
fn is_place(tables: &Tables, id: &Id) -> bool
    ensures { result ≡ is_place (row_at tables.now id.now) }
{
    match tables.rows.at(id) {
        Some(row) => !row.pending && is_folder(row),
        None => false,
    }
}

/// Lets the row of this id go, if it is no folder and doesn't wait.
fn go<W: Session>(alloc: Global, s: &mut W, id: &Id) -> Result<(), StepErr>
    requires ready { IsAtWork (W.now s.old) }

    ensures ends { EndsIfGone id.now (Goes id.now) (W.now s.old) result (W.now s.new) }
{
    if !is_leaf(s.tables(), id) {
        return Ok(());
    }
    s.make_shown(alloc, Change::Gone(*id))
}

/// Lets the row of this id go behind the notes in it, if it is a folder and doesn't wait.
fn close<W: Session>(alloc: Global, s: &mut W, id: &Id) -> Result<(), StepErr>
    requires ready { IsAtWork (W.now s.old) }
    requires gone { (known : Shown) × Lacks known id.now }

    ensures ends { EndsIfGone id.now (Closes id.now) (W.now s.old) result (W.now s.new) }
{
    if !is_place(s.tables(), id) {
        return Ok(());
    }
    let moves = folder_gone_changes(alloc, s.tables(), id)?;
    s.make_each(alloc, moves.as_slice())?;
    s.make_shown(alloc, Change::Gone(*id))
}

/// Lets the row of this id go, if it is its turn: that of the folders, or of what is none.
fn leave_one<W: Session>(alloc: Global, s: &mut W, folders: bool, id: &Id) -> Result<(), StepErr>
    requires ready { IsAtWork (W.now s.old) }
    requires gone { (known : Shown) × Lacks known id.now }

    ensures ends { EndsIfGone id.now (LeavesOne folders id.now) (W.now s.old) result
        (W.now s.new) }
{
    if folders {
        return close(alloc, s, id);
    }
    go(alloc, s, id)
}

/// Lets the rows of these ids go of which it is the turn.
fn leave_each<W: Session>(
    alloc: Global,
    s: &mut W,
    folders: bool,
    gone: &[Id],
) -> Result<(), StepErr>
    requires ready { IsAtWork (W.now s.old) }
    requires gone { (known : Shown) × LacksAll gone.now known }

    ensures ends { EndsIfAllGone gone.now (ForEach (LeavesOne folders) gone.now) (W.now s.old)
        result (W.now s.new) }
{
    for index in 0..gone.len() {
        leave_one(alloc, s, folders, &gone[index])?;
    }
    Ok(())
}

/// Lets the rows go whose files are gone: first what is no folder, and then the folders.
pub(crate) fn leave<W: Session>(alloc: Global, s: &mut W, gone: &[Id]) -> Result<(), StepErr>
    requires ready { IsAtWork (W.now s.old) }
    requires gone { (known : Shown) × LacksAll gone.now known }

    ensures ends { EndsIfAllGone gone.now (LeavesGone gone.now) (W.now s.old) result (W.now s.new) }
{
    leave_each(alloc, s, false, gone)?;
    leave_each(alloc, s, true, gone)
}

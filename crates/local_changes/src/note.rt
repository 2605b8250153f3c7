ghost use Rattle.std.specs.Prelude.{◌≤◌, IfOk};
ghost use Rattle.jop_base.specs.Times.{last_time};
ghost use Rattle.item_kinds.specs.Made.{IsLine};
ghost use Rattle.local_changes.specs.Answers.{IsDueOrMemory};
ghost use Rattle.local_changes.specs.Makers.{new_note};
ghost use Rattle.local_store.specs.Sound.{IsAllowed};

use crate::lookup::has_row;
use crate::saving::saved_within;
use crate::store_err::StoreErr;
use item_kinds::{Kind, note_item};
use jop_base::{Id, Text};
use local_store::{Change, Tables};
use std::alloc::Global;

/// A new note in a notebook. `NotFound` exactly if no row of `book` is a notebook, and else `TooLarge` exactly if the
/// note's text has more than [`crate::ITEM_LIMIT`] bytes.
pub fn new_note(
    alloc: Global,
    tables: &Tables,
    id: Id,
    book: Id,
    title: Text,
    body: Text,
    now: u64,
) -> Result<Change, StoreErr>
    requires title { IsLine title }
    requires time { now ≤ last_time }
    ensures answer { IsDueOrMemory (new_note tables.now id book title body now) result }
    ensures allowed { IfOk result (λ change. IsAllowed change) }
{
    if !has_row(tables, &book, Kind::FOLDER) {
        return Err(StoreErr::NotFound(book));
    }
    let item = note_item(alloc, &id, &book, title, body, now)?;
    saved_within(alloc, id, item)
}

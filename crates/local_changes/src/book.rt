ghost use Rattle.std.specs.Prelude.{◌≡◌, ◌≤◌, IfOk};
ghost use Rattle.jop_base.specs.Times.{last_time};
ghost use Rattle.item_kinds.specs.Made.{IsLine};
ghost use Rattle.local_changes.specs.Answers.{IsDueOrMemory};
ghost use Rattle.local_changes.specs.Makers.{parent_check, new_book};
ghost use Rattle.local_store.specs.Sound.{IsAllowed};

use crate::lookup::has_row;
use crate::saving::saved_within;
use crate::store_err::StoreErr;
use item_kinds::{Kind, folder_item};
use jop_base::{Id, Text};
use local_store::{Change, Tables};
use std::alloc::Global;

/// Refuses a parent that isn't there.
fn check_parent(tables: &Tables, parent: &Option<Id>) -> Result<(), StoreErr>
    ensures { result ≡ parent_check tables.now parent.now }
{
    match parent {
        Some(book) if !has_row(tables, book, Kind::FOLDER) => Err(StoreErr::NotFound(*book)),
        _ => Ok(()),
    }
}

/// A new notebook in another one, or at the top. `NotFound` exactly if a parent is given and no row
/// of it is a notebook, and else `TooLarge` exactly if the notebook's text has more than
/// [`crate::ITEM_LIMIT`] bytes.
pub fn new_book(
    alloc: Global,
    tables: &Tables,
    id: Id,
    parent: Option<Id>,
    title: Text,
    now: u64,
) -> Result<Change, StoreErr>
    requires title { IsLine title }
    requires time { now ≤ last_time }
    ensures answer { IsDueOrMemory (new_book tables.now id parent title now) result }
    ensures allowed { IfOk result (λ change. IsAllowed change) }
{
    check_parent(tables, &parent)?;
    let item = folder_item(alloc, &id, parent.as_ref(), title, now)?;
    saved_within(alloc, id, item)
}

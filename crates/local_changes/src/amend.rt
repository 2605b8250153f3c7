ghost use Rattle.std.specs.Prelude.{◌≡◌, ◌≤◌, List, ℕ, Some, IfOk};
ghost use Rattle.jop_base.specs.Id.{IsIdText};
ghost use Rattle.jop_base.specs.Times.{last_time};
ghost use Rattle.item_text.specs.Setting.{Sets};
ghost use Rattle.local_changes.specs.Amending.{Amends, IsFitAmendment, amended_item, is_entry};
ghost use Rattle.local_changes.specs.Amending.{parent_prop, plain_entry};
ghost use Rattle.local_changes.specs.Editing.{IsPlainNote};
ghost use Rattle.local_store.specs.Sound.{IsAllowed, IsContentOf, IsSound};
ghost use Rattle.local_store.specs.Tables.{row_at};
ghost use Rattle.local_store.specs.declared.content.Content.TheVariants.{Plain};

use crate::edit::set_times;
use crate::saving::saved_within;
use crate::store_err::StoreErr;
use item_kinds::{Kind, updated_of};
use item_text::{Item, set_prop};
use jop_base::{Copied, Id, MAX_TIME, Text};
use local_store::{Change, Content, Tables, has_kind};
use std::alloc::{AllocError, Global};

/// What a note or a notebook gets in place of what it has.
#[derive(Debug, Drop)]
pub enum Amendment {
    Title(Text),
    /// The notebook in which it is.
    Book(Id),
}

/// Whether the item is a note or a notebook.
fn is_entry(item: &Item) -> bool
    ensures { result ≡ is_entry item.now }
{
    has_kind(item, Kind::NOTE) || has_kind(item, Kind::FOLDER)
}

/// The note or notebook of an id, which must be readable. `NotFound` exactly if no row of this id is a note or a
/// notebook, `Sealed` exactly if it is sealed.
pub fn plain_entry<'a>(tables: &'a Tables, id: &Id) -> Result<&'a Item, StoreErr>
    ensures { IsPlainNote (plain_entry id.now (row_at tables.now id.now)) result }
{
    match tables.rows.at(id) {
        Some(row) if is_entry(row.content.item()) => match &row.content {
            Content::Plain(item) => Ok(item),
            Content::Sealed(_) => Err(StoreErr::Sealed(*id)),
        },
        _ => Err(StoreErr::NotFound(*id)),
    }
}

/// The item with another title.
fn titled(alloc: Global, item: &Item, title: Text) -> Result<Item, AllocError>
    ensures { IfOk result (λ new. new ≡ record item.now { title = Some title }) }
{
    Ok(Item {
        title: Some(title),
        body: item.body.copy(alloc)?,
        props: item.props.copy(alloc)?,
    })
}

/// The item in another notebook.
fn placed(alloc: Global, item: &Item, book: &Id) -> Result<Item, AllocError>
    ensures { IfOk result (λ new. Sets (parent_prop book.now) item.now new × IsIdText book.now) }
{
    let mut new = item.copy(alloc)?;
    let value = Text::of(alloc, book.as_str())?;
    set_prop(alloc, &mut new, "parent_id", value)?;
    Ok(new)
}

/// The item with another title, or in another notebook.
fn amended_item(alloc: Global, item: &Item, amendment: Amendment) -> Result<Item, AllocError>
    requires { IsFitAmendment amendment }
    ensures made { IfOk result (λ new. new ≡ amended_item amendment item.now) }
    ensures content { (id : List ℕ) → IsContentOf id (Plain item.now)
        → IfOk result (λ new. IsContentOf id (Plain new)) }
{
    match amendment {
        Amendment::Title(title) => titled(alloc, item, title),
        Amendment::Book(book) => placed(alloc, item, &book),
    }
}

/// A note or a notebook with another title, or in another notebook, which isn't looked for. In this order:
/// `NotFound` exactly if no row of this id is a note or a notebook, `Sealed` exactly if it is sealed, `TimeEnd`
/// exactly if it was last changed at [`MAX_TIME`], and `TooLarge` exactly if the new text has more than
/// [`crate::ITEM_LIMIT`] bytes. It counts as changed now, or a millisecond after its last change if that is later.
pub fn amended(
    alloc: Global,
    tables: &Tables,
    id: Id,
    amendment: Amendment,
    now: u64,
) -> Result<Change, StoreErr>
    requires sound { IsSound tables.now }
    requires fit { IsFitAmendment amendment }
    requires time { now ≤ last_time }
    ensures answer { Amends id amendment now (plain_entry id (row_at tables.now id)) result }
    ensures allowed { IfOk result (λ change. IsAllowed change) }
{
    let item = plain_entry(tables, &id)?;
    let last = updated_of(item);
    if last >= MAX_TIME {
        return Err(StoreErr::TimeEnd(id));
    }
    let mut new = amended_item(alloc, item, amendment)?;
    set_times(alloc, &mut new, now.max(last + 1))?;
    saved_within(alloc, id, new)
}

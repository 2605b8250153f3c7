ghost use Rattle.std.specs.Prelude.{◌≡◌, ◌≤◌, false, IfOk, OnOk, IfSome};
ghost use Rattle.jop_base.specs.Times.{last_time};
ghost use Rattle.item_kinds.specs.Made.{IsLine};
ghost use Rattle.item_text.specs.Lines.{has};
ghost use Rattle.item_text.specs.Setting.{Sets};
ghost use Rattle.item_text.specs.Valid.{IsField};
ghost use Rattle.local_changes.specs.Editing.{title_after, time_prop, stamped, edited_item, plain_note, IsPlainNote, Edits};
ghost use Rattle.local_store.specs.Sound.{IsAllowed, IsSound};
ghost use Rattle.local_store.specs.Tables.{row_at};

use crate::saving::saved_within;
use crate::store_err::StoreErr;
use item_kinds::{Kind, updated_of, write_time};
use item_text::{Item, set_prop};
use jop_base::{Copied, Id, MAX_TIME, Text};
use local_store::{Change, Content, Tables, has_kind};
use std::alloc::{AllocError, Global};

/// The new title if there is one, and else the old one, which is empty if there is none.
fn title_after(alloc: Global, old: &Option<Text>, title: Option<Text>) -> Result<Text, AllocError>
    ensures { IfOk result (λ text. text ≡ title_after old.now title) }
{
    match (title, old) {
        (Some(title), _) => Ok(title),
        (None, Some(old)) => Ok(old.copy(alloc)?),
        (None, None) => Ok(Text::new(alloc)),
    }
}

/// Gives a key a time.
#[tactic(auto, using(crate::proofs::EditedNotes::timed_prop, crate::proofs::EditedNotes::timed_item))]
fn set_time(alloc: Global, item: &mut Item, key: &str, time: u64) -> Result<(), AllocError>
    requires key { IsField key.now }
    requires no_colon { has 58 key.now ≡ false }
    requires time { time ≤ last_time }
    ensures { OnOk result (Sets (time_prop key.now time) item.old item.new) }
{
    let stamp = write_time(alloc, time)?;
    set_prop(alloc, item, key, stamp)?;
    Ok(())
}

/// Sets the time at which an item was changed, for the program and for the user.
#[tactic(auto, using(crate::proofs::EditedNotes::own_field, crate::proofs::EditedNotes::user_field))]
pub(crate) fn set_times(alloc: Global, item: &mut Item, time: u64) -> Result<(), AllocError>
    requires { time ≤ last_time }
    ensures { OnOk result (item.new ≡ stamped time item.old) }
{
    set_time(alloc, item, "updated_time", time)?;
    set_time(alloc, item, "user_updated_time", time)?;
    Ok(())
}

/// The item with another title and body, changed at this time.
fn edited_item(
    alloc: Global,
    item: &Item,
    title: Option<Text>,
    body: Text,
    time: u64,
) -> Result<Item, AllocError>
    requires { time ≤ last_time }
    ensures { IfOk result (λ new. new ≡ edited_item item.now title body time) }
{
    let mut new = Item {
        title: Some(title_after(alloc, &item.title, title)?),
        body,
        props: item.props.copy(alloc)?,
    };
    set_times(alloc, &mut new, time)?;
    Ok(new)
}

/// The note of an id, which must be readable. `NotFound` exactly if no row of this id is a note, `Sealed` exactly
/// if it is sealed.
pub fn plain_note<'a>(tables: &'a Tables, id: &Id) -> Result<&'a Item, StoreErr>
    ensures { IsPlainNote (plain_note id.now (row_at tables.now id.now)) result }
{
    match tables.rows.at(id) {
        Some(row) if has_kind(row.content.item(), Kind::NOTE) => match &row.content {
            Content::Plain(item) => Ok(item),
            Content::Sealed(_) => Err(StoreErr::Sealed(*id)),
        },
        _ => Err(StoreErr::NotFound(*id)),
    }
}

/// A note with another title, if one is given, and another body. In this order: `NotFound` exactly
/// if no row of this id is a note, `Sealed` exactly if it is sealed, `TimeEnd` exactly if it was last
/// changed at [`MAX_TIME`], and `TooLarge` exactly if the new text has more than
/// [`crate::ITEM_LIMIT`] bytes. It counts as changed now, or a millisecond after its last change if
/// that is later.
pub fn edited(
    alloc: Global,
    tables: &Tables,
    id: Id,
    title: Option<Text>,
    body: Text,
    now: u64,
) -> Result<Change, StoreErr>
    requires sound { IsSound tables.now }
    requires title { IfSome title (λ title. IsLine title) }
    requires time { now ≤ last_time }
    ensures answer { Edits id title body now (plain_note id (row_at tables.now id)) result }
    ensures allowed { IfOk result (λ change. IsAllowed change) }
{
    let item = plain_note(tables, &id)?;
    let last = updated_of(item);
    if last >= MAX_TIME {
        return Err(StoreErr::TimeEnd(id));
    }
    let item = edited_item(alloc, item, title, body, now.max(last + 1))?;
    saved_within(alloc, id, item)
}

ghost use Rattle.std.specs.Prelude.{◌≡◌, ◌≤◌, ◌++◌, IfOk, OnOk, All, option_map};
ghost use Rattle.std.specs.List.{list_any, find};
ghost use Rattle.jop_base.specs.Times.{last_time};
ghost use Rattle.item_kinds.specs.Made.{IsLine};
ghost use Rattle.local_changes.specs.Answers.{IsDueOrMemory};
ghost use Rattle.local_changes.specs.Tagging.{has_title, is_tag_of, is_link, tagged, tag_id, all_changes, tag_changes, link_changes, unlinking, unlinking_one};
ghost use Rattle.local_store.specs.Sound.{IsAllowed};

use crate::lookup::{has_row, has_value};
use crate::store_err::StoreErr;
use item_kinds::{Kind, note_tag_item, tag_item};
use item_text::Item;
use jop_base::{Id, Seq, Text};
use local_store::{Change, Content, Row, Tables, has_kind};
use std::alloc::{AllocError, Global};

/// Whether the item has this title. An absent one equals an empty one.
fn has_title(item: &Item, title: &str) -> bool
    ensures { result ≡ has_title title.now item.now }
{
    match &item.title {
        Some(own) => own.as_str() == title,
        None => title.is_empty(),
    }
}

/// Whether the row is a readable tag of this title.
fn is_tag_of(row: &Row, title: &str) -> bool
    ensures { result ≡ is_tag_of title.now row.now }
{
    match &row.content {
        Content::Plain(item) => has_kind(item, Kind::TAG) && has_title(item, title),
        Content::Sealed(_) => false,
    }
}

/// Whether the row says that a note bears a tag.
fn is_link(row: &Row, note: &Id, tag: &Id) -> bool
    ensures { result ≡ is_link note.now tag.now row.now }
{
    let item = row.content.item();
    has_kind(item, Kind::NOTE_TAG)
        && has_value(item, b"note_id", note.as_str().as_bytes())
        && has_value(item, b"tag_id", tag.as_str().as_bytes())
}

/// The id of the first readable tag of this title.
fn tag_of_title(rows: &[Row], title: &str) -> Option<Id>
    ensures { result ≡ option_map (λ r. r.id) (find (is_tag_of title.now) rows.now) }
{
    for row in rows {
        if is_tag_of(row, title) {
            return Some(row.id);
        }
    }
    None
}

/// Whether a row says that a note bears a tag.
pub fn has_link(rows: &[Row], note: &Id, tag: &Id) -> bool
    ensures { result ≡ list_any (is_link note.now tag.now) rows.now }
{
    for row in rows {
        if is_link(row, note, tag) {
            return true;
        }
    }
    false
}

/// Adds the change that says that a note bears a tag, unless a row says so already.
fn add_link(
    alloc: Global,
    changes: &mut Seq<Change>,
    rows: &[Row],
    id: Id,
    note: &Id,
    tag: &Id,
    now: u64,
) -> Result<(), AllocError>
    requires { now ≤ last_time }
    ensures added { OnOk result (changes.new
        ≡ changes.old ++ link_changes rows.now id note.now tag.now now) }
    ensures allowed { OnOk result (All IsAllowed changes.old → All IsAllowed changes.new) }
{
    if has_link(rows, note, tag) {
        return Ok(());
    }
    let link = note_tag_item(alloc, &id, note, tag, now)?;
    changes.push(Change::Saved(id, link))?;
    Ok(())
}

/// The id of the first readable tag of this title. If there is none, adds the change that makes one.
fn tag_or_new(
    alloc: Global,
    changes: &mut Seq<Change>,
    rows: &[Row],
    id: Id,
    title: Text,
    now: u64,
) -> Result<Id, AllocError>
    requires title { IsLine title }
    requires time { now ≤ last_time }
    ensures id { IfOk result (λ tag. tag ≡ tag_id id (find (is_tag_of title) rows.now)) }
    ensures added { OnOk result (changes.new
        ≡ changes.old ++ tag_changes id title now (find (is_tag_of title) rows.now)) }
    ensures allowed { OnOk result (All IsAllowed changes.old → All IsAllowed changes.new) }
{
    if let Some(old) = tag_of_title(rows, title.as_str()) {
        return Ok(old);
    }
    let tag = tag_item(alloc, &id, title, now)?;
    changes.push(Change::Saved(id, tag))?;
    Ok(id)
}

/// The changes that tag a note. `NotFound` exactly if no row of `note` is a note. The first readable tag of that title
/// serves, and if there is none a new one of the id `tag`; the row of the id `link` that says that the note bears it is
/// made unless there is one.
pub fn tagged(
    alloc: Global,
    tables: &Tables,
    tag: Id,
    link: Id,
    note: Id,
    title: Text,
    now: u64,
) -> Result<Seq<Change>, StoreErr>
    requires title { IsLine title }
    requires time { now ≤ last_time }
    ensures answer { IsDueOrMemory (tagged tables.now tag link note title now) result }
    ensures allowed { IfOk result (λ changes. All IsAllowed changes) }
{
    if !has_row(tables, &note, Kind::NOTE) {
        return Err(StoreErr::NotFound(note));
    }
    let mut changes = Seq::new(alloc);
    let rows = tables.rows.as_slice();
    let tag = tag_or_new(alloc, &mut changes, rows, tag, title, now)?;
    add_link(alloc, &mut changes, rows, link, &note, &tag, now)?;
    Ok(changes)
}

/// The changes that remove each row that says that a note bears a tag.
#[tactic(auto, using(crate::proofs::Links::unlinking_allowed))]
pub fn unlinked(alloc: Global, rows: &[Row], note: &Id, tag: &Id) -> Result<Seq<Change>, AllocError>
    ensures changes { IfOk result (λ changes. changes ≡ unlinking note.now tag.now rows.now) }
    ensures allowed { IfOk result (λ changes. All IsAllowed changes) }
{
    let mut changes = Seq::new(alloc);
    for row in rows {
        unlink_one(&mut changes, row, note, tag)?;
    }
    Ok(changes)
}

/// Adds the change that removes the row, if it says that the note bears the tag.
fn unlink_one(changes: &mut Seq<Change>, row: &Row, note: &Id, tag: &Id) -> Result<(), AllocError>
    ensures { OnOk result (changes.new ≡ changes.old ++ unlinking_one note.now tag.now row.now) }
{
    if is_link(row, note, tag) {
        changes.push(Change::Removed(row.id))?;
    }
    Ok(())
}

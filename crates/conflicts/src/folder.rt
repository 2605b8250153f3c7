ghost use Rattle.std.specs.Prelude.{◌≡◌, IfOk};
ghost use Rattle.conflicts.specs.Rules.{folder_gone_changes};
ghost use Rattle.law_licences.specs.Items.{is_note_in, says};

use item_kinds::Kind;
use item_text::{Item, prop};
use jop_base::{Id, Seq};
use local_store::{Change, Content, Row, Tables, has_kind};
use std::alloc::{AllocError, Global};

/// Whether the topmost value of the key is this one.
pub(crate) fn says(item: &Item, key: &[u8], value: &[u8]) -> bool
    ensures { result ≡ says key.now value.now item.now }
{
    match prop(item, key) {
        Some(own) => own.as_slice() == value,
        None => false,
    }
}

/// Whether the row is a readable note in this folder.
fn is_note_in(folder: &Id, row: &Row) -> bool
    ensures { result ≡ is_note_in folder.now row.now }
{
    match &row.content {
        Content::Plain(item) => {
            has_kind(item, Kind::NOTE) && says(item, b"parent_id", folder.as_str().as_bytes())
        }
        Content::Sealed(_) => false,
    }
}

/// The changes by which the readable notes in a folder that is gone become conflict notes, in the order of their ids.
pub fn folder_gone_changes(
    alloc: Global,
    tables: &Tables,
    folder: &Id,
) -> Result<Seq<Change>, AllocError>
    ensures { IfOk result (λ changes. changes ≡ folder_gone_changes tables.now folder.now) }
{
    let mut changes = Seq::new(alloc);
    for row in tables.rows.as_slice() {
        if is_note_in(folder, row) {
            changes.push(Change::Moved(row.id))?;
        }
    }
    Ok(changes)
}

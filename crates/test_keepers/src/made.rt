//! Rows, notes and infos from their texts.

ghost use Rattle.std.specs.Prelude.{All, IfOk};
ghost use Rattle.local_store.specs.Sound.{IsSoundRow, IsSoundNote};
ghost use Rattle.keeper_records.specs.Writes.{IsSoundWrite};
ghost use Rattle.sync_info.specs.Info.{IsInfo};

use jop_base::{Bytes, Id, Seq, Text};
use keeper_columns::{NoteRecord, Record, RecordErr, RowRecord};
use keeper_records::Write;
use local_store::{ConflictNote, Row};
use std::alloc::{AllocError, Global};
use sync_info::{Info, InfoErr, read_info};

/// What an item is made of.
#[derive(Clone, Copy)]
pub(crate) struct Parts<'a> {
    pub id: Id,
    /// The number of its kind.
    pub kind: u64,
    pub body: &'a str,
    pub sealed: bool,
}

pub(crate) fn bytes(alloc: Global, content: &[u8]) -> Result<Bytes, AllocError> {
    let mut bytes = Bytes::new(alloc);
    bytes.append(content)?;
    Ok(bytes)
}

/// The text of an item.
fn item_text(alloc: Global, parts: &Parts) -> Result<Bytes, AllocError> {
    let (id, kind, body) = (parts.id.as_str(), parts.kind, parts.body);
    let applied = if parts.sealed { 1 } else { 0 };
    let text = format!(in alloc;
        "A title\n\n{body}\n\nid: {id}\nencryption_applied: {applied}\ntype_: {kind}"
    )?;
    Ok(Bytes::from_vec(text.into_bytes()))
}

fn base_of(alloc: Global, parts: &Parts, synced: bool) -> Result<Option<Bytes>, AllocError> {
    if !synced {
        return Ok(None);
    }
    let base = bytes(alloc, parts.body.as_bytes())?;
    Ok(Some(base))
}

fn record(alloc: Global, parts: &Parts, synced: bool) -> Result<RowRecord, AllocError> {
    let id = Text::of(alloc, parts.id.as_str())?;
    let content = item_text(alloc, parts)?;
    let base = base_of(alloc, parts, synced)?;
    Ok(RowRecord {
        id,
        sealed: if parts.sealed { 1 } else { 0 },
        content,
        base,
        pending: if parts.sealed || synced { 0 } else { 1 },
    })
}

/// A row with an item. What its file held is its body, if it is synced.
pub(crate) fn row(alloc: Global, parts: &Parts, synced: bool) -> Result<Row, RecordErr>
    ensures { IfOk result (λ row. IsSoundRow row) }
{
    let record = record(alloc, parts, synced)?;
    record.read(alloc)
}

fn note_record(alloc: Global, parts: &Parts) -> Result<NoteRecord, AllocError> {
    let note = Text::of(alloc, parts.id.as_str())?;
    let content = item_text(alloc, parts)?;
    Ok(NoteRecord {
        number: 0,
        note,
        content,
    })
}

/// A conflict note of this number with the text of a note.
pub(crate) fn note(
    alloc: Global,
    number: u64,
    id: Id,
    body: &str,
) -> Result<ConflictNote, RecordErr>
    ensures { IfOk result (λ note. IsSoundNote note) }
{
    let record = note_record(
        alloc,
        &Parts {
            id,
            kind: 1,
            body,
            sealed: false,
        },
    )?;
    let mut note = record.read(alloc)?;
    note.number = number;
    Ok(note)
}

pub(crate) fn info(alloc: Global, version: u64) -> Result<Info, InfoErr>
    ensures { IfOk result (λ info. IsInfo info) }
{
    let text = format!(in alloc;
        "{{\"version\":{version},\"e2ee\":{{\"value\":false,\"updatedTime\":0}},\
         \"activeMasterKeyId\":{{\"value\":\"\",\"updatedTime\":0}},\"masterKeys\":[]}}"
    )?;
    read_info(alloc, text.as_bytes())
}

/// One write more.
pub(crate) fn add(writes: &mut Seq<Write>, write: Write) -> Result<(), AllocError>
    requires sound { IsSoundWrite write }
    requires others { All IsSoundWrite writes.old }
    ensures { All IsSoundWrite writes.new }
{
    writes.push(write)
}

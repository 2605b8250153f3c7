use crate::broken_off::BrokenOff;
use crate::files::Text;
use crate::step::id_of;
use conflicts::SyncReport;
use item_text::{Item, is_item, write_item};
use local_store::{ConflictNote, Row, Tables};
use std::alloc::Global;

/// A row: its id, its text, and whether it waits to be uploaded.
pub type RowText = (&'static str, &'static str, bool);

/// What stands in a client's tables: its rows in the order of their ids, and its conflict notes in
/// theirs.
#[derive(Clone, Copy)]
pub struct Standing {
    pub rows: &'static [RowText],
    pub copies: &'static [Text],
}

fn is_text(alloc: Global, item: &Item, text: &str) -> Result<bool, BrokenOff> {
    if !is_item(item) {
        return Ok(false);
    }
    Ok(write_item(alloc, item)?.as_slice() == text.as_bytes())
}

fn is_row(alloc: Global, row: &Row, shown: &RowText) -> Result<bool, BrokenOff> {
    let alike = row.id == id_of(shown.0)? && row.pending == shown.2;
    Ok(alike && is_text(alloc, row.content.item(), shown.1)?)
}

fn is_copy(alloc: Global, copy: &ConflictNote, shown: &Text) -> Result<bool, BrokenOff> {
    Ok(copy.note == id_of(shown.0)? && is_text(alloc, &copy.item, shown.1)?)
}

fn are_rows(alloc: Global, rows: &[Row], shown: &[RowText]) -> Result<bool, BrokenOff> {
    for (row, text) in rows.iter().zip(shown) {
        if !is_row(alloc, row, text)? {
            return Ok(false);
        }
    }
    Ok(rows.len() == shown.len())
}

fn are_copies(alloc: Global, copies: &[ConflictNote], shown: &[Text]) -> Result<bool, BrokenOff> {
    for (copy, text) in copies.iter().zip(shown) {
        if !is_copy(alloc, copy, text)? {
            return Ok(false);
        }
    }
    Ok(copies.len() == shown.len())
}

impl Standing {
    /// Whether these tables have exactly these rows and conflict notes.
    pub fn is_of(&self, alloc: Global, tables: &Tables) -> Result<bool, BrokenOff> {
        let rows = are_rows(alloc, tables.rows.as_slice(), self.rows)?;
        let copies = are_copies(alloc, tables.conflicts.as_slice(), self.copies)?;
        Ok(rows && copies)
    }
}

/// How many items were put, removed, taken, gone, copied and bad.
pub fn counts(report: &SyncReport) -> [u64; 6] {
    [
        report.put,
        report.removed,
        report.taken,
        report.gone,
        report.conflicts,
        report.bad.len() as u64,
    ]
}

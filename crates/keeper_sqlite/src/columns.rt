//! What the columns of a row of an answer stand for.

ghost use Rattle.std.specs.Prelude.{◌≡◌, IfOk, List, ⊤};
ghost use Rattle.sqlite.specs.Values.{or_null};
ghost use Rattle.sqlite_value.specs.Order.{column};
ghost use Rattle.sqlite_value.specs.declared.value.Value.{Value};
ghost use Rattle.sqlite_value.specs.declared.value.Value.TheVariants.{Int, Text as SqlText, Blob as SqlBlob};
ghost use Rattle.local_store.specs.Sound.{IsSoundRow};
ghost use Rattle.keeper_columns.specs.Holding.{IsSoundConflict, IsSoundDeletion};
ghost use Rattle.keeper_sqlite.specs.Answers.{StandsForBytes, StandsForDeletion, IsDeletionRecord, IsNoteRecord, IsRowRecord, StandsForNote, StandsForRow};

use jop_base::{Bytes, Text};
use keeper_columns::{DeletionRecord, NoteRecord, Record, RowRecord};
use keeper_file::Trouble;
use local_store::{ConflictNote, Deletion, Row};
use sqlite::Row as Columns;
use std::alloc::Global;

/// What the columns of a row of an answer stand for.
pub trait FromColumns: Drop {
    /// Which columns stand for which values, and which values are sound.
    ghost stands: { List Value → Self → Type 0 };

    ghost is_sound: { Self → Type 0 };

    fn from_columns(alloc: Global, row: &Columns) -> Result<Self, Trouble>
        ensures stands { IfOk result (λ value. stands row.now value) }
        ensures sound { IfOk result (λ value. is_sound value) };
}

// ---- one column

fn text_at(alloc: Global, row: &Columns, place: usize) -> Result<Text, Trouble>
    ensures { IfOk result (λ text. column row.now place ≡ SqlText text) }
{
    let text: String = row.get(place)?;
    Ok(Text::of(alloc, text.as_str())?)
}

fn bytes_at(row: &Columns, place: usize) -> Result<Bytes, Trouble>
    ensures { IfOk result (λ bytes. column row.now place ≡ SqlBlob bytes) }
{
    let bytes: Vec<u8> = row.get(place)?;
    Ok(Bytes::from_vec(bytes))
}

fn bytes_or_null_at(row: &Columns, place: usize) -> Result<Option<Bytes>, Trouble>
    ensures { IfOk result (λ bytes. column row.now place ≡ or_null SqlBlob bytes) }
{
    let bytes: Option<Vec<u8>> = row.get(place)?;
    match bytes {
        Some(bytes) => Ok(Some(Bytes::from_vec(bytes))),
        None => Ok(None),
    }
}

fn number_at(row: &Columns, place: usize) -> Result<i64, Trouble>
    ensures { IfOk result (λ number. column row.now place ≡ Int number) }
{
    let number: i64 = row.get(place)?;
    Ok(number)
}

// ---- records

fn row_record(alloc: Global, row: &Columns) -> Result<RowRecord, Trouble>
    ensures { IfOk result (λ made. IsRowRecord row.now made) }
{
    Ok(RowRecord {
        id: text_at(alloc, row, 0)?,
        sealed: number_at(row, 1)?,
        content: bytes_at(row, 2)?,
        base: bytes_or_null_at(row, 3)?,
        pending: number_at(row, 4)?,
    })
}

fn deletion_record(alloc: Global, row: &Columns) -> Result<DeletionRecord, Trouble>
    ensures { IfOk result (λ made. IsDeletionRecord row.now made) }
{
    Ok(DeletionRecord {
        id: text_at(alloc, row, 0)?,
        resource: number_at(row, 1)?,
    })
}

fn note_record(alloc: Global, row: &Columns) -> Result<NoteRecord, Trouble>
    ensures { IfOk result (λ made. IsNoteRecord row.now made) }
{
    Ok(NoteRecord {
        number: number_at(row, 0)?,
        note: text_at(alloc, row, 1)?,
        content: bytes_at(row, 2)?,
    })
}

// ---- values

impl FromColumns for Row {
    ghost stands = { StandsForRow };

    ghost is_sound = { IsSoundRow };

    #[tactic(auto, using(crate::proofs::Standing::row_stands))]
    fn from_columns(alloc: Global, row: &Columns) -> Result<Row, Trouble> {
        let record = row_record(alloc, row)?;
        let value = record.read(alloc)?;
        Ok(value)
    }
}

impl FromColumns for Deletion {
    ghost stands = { StandsForDeletion };

    ghost is_sound = { IsSoundDeletion };

    #[tactic(auto, using(crate::proofs::Standing::deletion_stands))]
    fn from_columns(alloc: Global, row: &Columns) -> Result<Deletion, Trouble> {
        let record = deletion_record(alloc, row)?;
        let value = record.read(alloc)?;
        Ok(value)
    }
}

impl FromColumns for ConflictNote {
    ghost stands = { StandsForNote };

    ghost is_sound = { IsSoundConflict };

    #[tactic(auto, using(crate::proofs::Standing::note_stands))]
    fn from_columns(alloc: Global, row: &Columns) -> Result<ConflictNote, Trouble> {
        let record = note_record(alloc, row)?;
        let value = record.read(alloc)?;
        Ok(value)
    }
}

impl FromColumns for Bytes {
    ghost stands = { StandsForBytes };

    ghost is_sound = { λ _. ⊤ };

    fn from_columns(_alloc: Global, row: &Columns) -> Result<Bytes, Trouble> {
        bytes_at(row, 0)
    }
}

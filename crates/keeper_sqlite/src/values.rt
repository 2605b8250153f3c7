//! The values of statements.

ghost use Rattle.std.specs.Prelude.{◌≡◌, [], ◌∷◌};
ghost use Rattle.sqlite.specs.Values.{bound, bound_value, or_null};
ghost use Rattle.sqlite_value.specs.Value.{owned};
ghost use Rattle.sqlite_value.specs.declared.value.Value.TheVariants.{Int, Text as SqlText, Blob as SqlBlob};
ghost use Rattle.keeper_sqlite.specs.Statements.{deletion_columns, note_columns, row_columns};

use jop_base::Bytes;
use keeper_columns::{DeletionRecord, NoteRecord, RowRecord};
use sqlite::types::ValueRef;

pub(crate) fn text(text: &str) -> ValueRef<'_>
    ensures { bound_value (owned result) ≡ SqlText text.now }
{
    ValueRef::Text(text.as_bytes())
}

pub(crate) fn bytes(bytes: &[u8]) -> ValueRef<'_>
    ensures { bound_value (owned result) ≡ SqlBlob bytes.now }
{
    ValueRef::Blob(bytes)
}

fn bytes_or_null(bytes: &Option<Bytes>) -> ValueRef<'_>
    ensures { bound_value (owned result) ≡ or_null SqlBlob bytes.now }
{
    match bytes {
        Some(bytes) => ValueRef::Blob(bytes.as_slice()),
        None => ValueRef::Null,
    }
}

pub(crate) fn number<'a>(number: i64) -> ValueRef<'a>
    ensures { bound_value (owned result) ≡ Int number }
{
    ValueRef::Int(number)
}

pub(crate) fn of_row(kept: &RowRecord) -> [ValueRef<'_>; 5]
    ensures { bound result ≡ row_columns kept.now }
{
    [
        text(kept.id.as_str()),
        number(kept.sealed),
        bytes(kept.content.as_slice()),
        bytes_or_null(&kept.base),
        number(kept.pending),
    ]
}

pub(crate) fn of_deletion(kept: &DeletionRecord) -> [ValueRef<'_>; 2]
    ensures { bound result ≡ deletion_columns kept.now }
{
    [text(kept.id.as_str()), number(kept.resource)]
}

pub(crate) fn of_note(kept: &NoteRecord) -> [ValueRef<'_>; 3]
    ensures { bound result ≡ note_columns kept.now }
{
    [
        number(kept.number),
        text(kept.note.as_str()),
        bytes(kept.content.as_slice()),
    ]
}

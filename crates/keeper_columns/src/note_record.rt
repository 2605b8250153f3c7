ghost use Rattle.std.specs.Prelude.{◌≡◌, ◌≤◌, ◌^◌, IfOk};
ghost use Rattle.item_text.specs.Grammar.{written};
ghost use Rattle.local_store.specs.Sound.{IsSoundNote};
ghost use Rattle.keeper_columns.specs.Holding.{HoldsNote};

use crate::record::Record;
use crate::record_err::RecordErr;
use crate::texts::{item_of, item_text};
use jop_base::{Bytes, Id, Text};
use local_store::ConflictNote;
use std::alloc::Global;

/// A conflict note as a database holds it.
#[derive(Debug, Drop)]
pub struct NoteRecord {
    pub number: i64,
    /// The id of the item.
    pub note: Text,
    /// The text of the item.
    pub content: Bytes,
}

impl NoteRecord {
    /// The record of a conflict note. A number past 2^63 - 1 is `Bad`.
    pub fn of(alloc: Global, note: &ConflictNote) -> Result<NoteRecord, RecordErr>
        requires { IsSoundNote note.now }
        ensures holds { IfOk result (λ made. HoldsNote made note.now) }
        ensures text { IfOk result (λ made. made.content ≡ written note.now.item) }
        ensures bad { result ≡ Err RecordErr.Bad → 2 ^ 63 ≤ note.now.number }
    {
        let number = match i64::try_from(note.number) {
            Ok(number) => number,
            Err(_) => return Err(RecordErr::Bad),
        };
        Ok(NoteRecord {
            number,
            note: Text::of(alloc, note.note.as_str())?,
            content: item_text(alloc, &note.item)?,
        })
    }
}

impl Record for NoteRecord {
    ghost use Rattle.keeper_columns.specs.Holding.{HoldsNote, IsSoundConflict};

    type Held = ConflictNote;

    ghost holds = { HoldsNote };

    ghost is_sound = { IsSoundConflict };

    fn read(&self, alloc: Global) -> Result<ConflictNote, RecordErr> {
        match (u64::try_from(self.number), Id::read(self.note.as_slice())) {
            (Ok(number), Some(note)) => {
                let item = item_of(alloc, &self.content)?;
                Ok(ConflictNote { number, note, item })
            }
            _ => Err(RecordErr::Bad),
        }
    }
}

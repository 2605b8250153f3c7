//! What records hold. Each law is a function with nothing to do, whose contract says it.

ghost use Rattle.std.specs.Prelude.{◌≡◌};
ghost use Rattle.local_store.specs.declared.conflict_note.ConflictNote.{ConflictNote};
ghost use Rattle.local_store.specs.declared.deletion.Deletion.{Deletion};
ghost use Rattle.local_store.specs.declared.row.Row.{Row};
ghost use Rattle.keeper_columns.specs.declared.deletion_record.DeletionRecord.{DeletionRecord};
ghost use Rattle.keeper_columns.specs.declared.note_record.NoteRecord.{NoteRecord};
ghost use Rattle.keeper_columns.specs.declared.row_record.RowRecord.{RowRecord};
ghost use Rattle.keeper_columns.specs.Holding.{HoldsRow, HoldsDeletion, HoldsNote};

/// A record holds one value only. So what is read from the record of a value is that value.
#[tactic(auto, using(crate::proofs::Held::one_row, crate::proofs::Held::one_deletion, crate::proofs::Held::one_note))]
pub fn records_hold_one_value()
    ensures rows { (s : RowRecord) (r q : Row) → HoldsRow s r → HoldsRow s q → r ≡ q }
    ensures deletions { (s : DeletionRecord) (d e : Deletion) → HoldsDeletion s d
        → HoldsDeletion s e → d ≡ e }
    ensures notes { (s : NoteRecord) (m n : ConflictNote) → HoldsNote s m → HoldsNote s n → m ≡ n }
{}

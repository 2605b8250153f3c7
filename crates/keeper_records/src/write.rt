use jop_base::{ClientId, Context, Id};
use local_store::{ConflictNote, Deletion, Row};
use sync_info::Info;

/// What is written to a store of records.
#[derive(Debug, Drop)]
pub enum Write {
    /// In place of the row of its id, or among the others.
    SetRow(Row),
    DropRow(Id),
    /// In place of the deletion of its id, or among the others.
    SetDeletion(Deletion),
    DropDeletion(Id),
    AddConflict(ConflictNote),
    /// Each conflict note of this number goes.
    DropConflict(u64),
    /// The number of the next conflict note.
    SetNext(u64),
    SetClient(ClientId),
    SetContext(Context),
    SetInfo(Info),
}

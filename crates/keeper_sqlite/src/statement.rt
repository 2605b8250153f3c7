use crate::statements::{
    ADD_CONFLICT, DROP_BYTES, DROP_CONFLICT, DROP_DELETION, DROP_ROW, SET_BLOB, SET_CLIENT,
    SET_CONTEXT, SET_DELETION, SET_INFO, SET_NEXT, SET_ROW,
};
use keeper_file::TABLES;

/// A statement that changes a database.
#[derive(Clone, Copy, Debug, PartialEq, Eq)]
pub enum Statement {
    MakeMeta,
    MakeRows,
    MakeDeletions,
    MakeConflicts,
    MakeBlobs,
    /// Of a row's id, whether it is sealed, its content, its base and whether it waits.
    SetRow,
    /// Of an id.
    DropRow,
    /// Of an id, and whether it is that of a resource.
    SetDeletion,
    /// Of an id.
    DropDeletion,
    /// Of an id: its bytes go, if nothing asks for them any more.
    DropBytes,
    /// Of a number, the id of the note, and its text.
    AddConflict,
    /// Of a number.
    DropConflict,
    /// Of a number's digits.
    SetNext,
    /// Of the digits of an id.
    SetClient,
    /// Of the digits of a moment, and of the ids that were seen then.
    SetContext,
    /// Of the info's text.
    SetInfo,
    /// Of an id, and its bytes.
    SetBlob,
}

impl Statement {
    /// What the database is told.
    pub fn text(self) -> &'static str {
        let [meta, rows, deletions, conflicts, blobs] = TABLES;
        match self {
            Statement::MakeMeta => meta,
            Statement::MakeRows => rows,
            Statement::MakeDeletions => deletions,
            Statement::MakeConflicts => conflicts,
            Statement::MakeBlobs => blobs,
            Statement::SetRow => SET_ROW,
            Statement::DropRow => DROP_ROW,
            Statement::SetDeletion => SET_DELETION,
            Statement::DropDeletion => DROP_DELETION,
            Statement::DropBytes => DROP_BYTES,
            Statement::AddConflict => ADD_CONFLICT,
            Statement::DropConflict => DROP_CONFLICT,
            Statement::SetNext => SET_NEXT,
            Statement::SetClient => SET_CLIENT,
            Statement::SetContext => SET_CONTEXT,
            Statement::SetInfo => SET_INFO,
            Statement::SetBlob => SET_BLOB,
        }
    }
}

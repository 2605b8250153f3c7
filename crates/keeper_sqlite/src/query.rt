use crate::statements::{ALL_CONFLICTS, ALL_DELETIONS, ALL_ROWS, BLOB, META, ROW};

/// What a database is asked.
#[derive(Clone, Copy, Debug, PartialEq, Eq)]
pub enum Query {
    /// The value of a key.
    Meta,
    AllRows,
    /// The row of an id.
    OneRow,
    AllDeletions,
    AllConflicts,
    /// The bytes of the resource of an id.
    OneBlob,
}

impl Query {
    /// How the database is asked.
    pub fn text(self) -> &'static str {
        match self {
            Query::Meta => META,
            Query::AllRows => ALL_ROWS,
            Query::OneRow => ROW,
            Query::AllDeletions => ALL_DELETIONS,
            Query::AllConflicts => ALL_CONFLICTS,
            Query::OneBlob => BLOB,
        }
    }
}

use crate::content::Content;
use jop_base::{Bytes, Copied, Id, Keyed};
use std::alloc::{AllocError, Global};

/// An item that this client has.
#[derive(Debug, Drop)]
pub struct Row {
    pub id: Id,
    pub content: Content,
    /// The bytes of the item's file when this client last read or wrote it. A row that has them is synced.
    pub base: Option<Bytes>,
    /// Whether the item was saved here and isn't uploaded yet.
    pub pending: bool,
}

impl Keyed for Row {
    ghost use Rattle.local_store.specs.Rows.{row_id};

    type Key = Id;

    ghost key = { row_id };

    fn key(&self) -> Id {
        self.id
    }
}

impl Copied for Row {
    fn copy(&self, alloc: Global) -> Result<Row, AllocError> {
        Ok(Row {
            id: self.id,
            content: self.content.copy(alloc)?,
            base: self.base.copy(alloc)?,
            pending: self.pending,
        })
    }
}

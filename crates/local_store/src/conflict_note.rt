use item_text::Item;
use jop_base::{Copied, Id};
use std::alloc::{AllocError, Global};

/// The local text of an item that the target's text has replaced.
#[derive(Debug, Drop)]
pub struct ConflictNote {
    /// Counted from 1 in each client's tables.
    pub number: u64,
    /// The id of the item.
    pub note: Id,
    pub item: Item,
}

impl Copied for ConflictNote {
    fn copy(&self, alloc: Global) -> Result<ConflictNote, AllocError> {
        Ok(ConflictNote {
            number: self.number,
            note: self.note,
            item: self.item.copy(alloc)?,
        })
    }
}

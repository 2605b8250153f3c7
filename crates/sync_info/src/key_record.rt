use crate::member::Member;
use jop_base::{Copied, Id, Seq, Text};
use std::alloc::{AllocError, Global};

/// A key of a target, sealed under its owner's password.
#[derive(Debug, PartialEq, Eq, Drop)]
pub struct KeyRecord {
    pub id: Id,
    pub content: Text,
    /// When it was last changed, in milliseconds since 1970.
    pub updated: u64,
    /// The other members, in the order of their names.
    pub others: Seq<Member>,
}

impl Copied for KeyRecord {
    fn copy(&self, alloc: Global) -> Result<KeyRecord, AllocError> {
        Ok(KeyRecord {
            id: self.id,
            content: self.content.copy(alloc)?,
            updated: self.updated,
            others: self.others.copy(alloc)?,
        })
    }
}

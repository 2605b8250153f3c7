use jop_base::{Copied, Id, Keyed};
use std::alloc::{AllocError, Global};

/// An item whose file is to be deleted on the target.
#[derive(Clone, Copy, Debug, PartialEq, Eq)]
pub struct Deletion {
    pub id: Id,
    /// Whether it was a resource, so that its blob is to be deleted too.
    pub resource: bool,
}

impl Keyed for Deletion {
    ghost use Rattle.local_store.specs.Rows.{deletion_id};

    type Key = Id;

    ghost key = { deletion_id };

    fn key(&self) -> Id {
        self.id
    }
}

impl Copied for Deletion {
    fn copy(&self, _alloc: Global) -> Result<Deletion, AllocError> {
        Ok(*self)
    }
}

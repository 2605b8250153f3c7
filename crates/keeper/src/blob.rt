use jop_base::{Bytes, Copied, Id, Keyed};
use std::alloc::{AllocError, Global};

/// The bytes of a resource.
#[derive(Debug, Drop)]
pub struct Blob {
    pub id: Id,
    pub bytes: Bytes,
}

impl Keyed for Blob {
    ghost use Rattle.keeper.specs.Keepers.{blob_id};

    type Key = Id;

    ghost key = { blob_id };

    fn key(&self) -> Id {
        self.id
    }
}

impl Copied for Blob {
    fn copy(&self, alloc: Global) -> Result<Blob, AllocError> {
        Ok(Blob {
            id: self.id,
            bytes: self.bytes.copy(alloc)?,
        })
    }
}

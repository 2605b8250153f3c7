use jop_base::Copied;
use std::alloc::{AllocError, Global};

/// A setting, and when it was last changed, in milliseconds since 1970.
#[derive(Clone, Copy, Debug, PartialEq, Eq, Drop)]
pub struct Timed<T> {
    pub value: T,
    pub updated: u64,
}

impl<T: Copied> Copied for Timed<T> {
    fn copy(&self, alloc: Global) -> Result<Timed<T>, AllocError> {
        Ok(Timed {
            value: self.value.copy(alloc)?,
            updated: self.updated,
        })
    }
}

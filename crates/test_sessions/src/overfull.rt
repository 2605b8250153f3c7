use jop_base::Bytes;
use jop_target::{BLOB_LIMIT, Call, MemTarget, Reply, Target};
use std::alloc::{AllocError, Global};

/// A target in memory on which the bytes of each resource are too many to be got.
#[derive(Drop)]
pub(crate) struct Overfull {
    inner: MemTarget,
}

impl Overfull {
    pub(crate) fn over(inner: MemTarget) -> Overfull {
        Overfull { inner }
    }
}

impl Target for Overfull {
    ghost use Rattle.std.specs.Prelude.{None};

    ghost state = { λ t. record { store = None; faults = t.inner.faults } };

    fn call(&mut self, alloc: Global, call: &Call, blob: &mut Bytes) -> Result<Reply, AllocError> {
        match call {
            Call::GetBlob(_) => Ok(Reply::TooLarge {
                len: BLOB_LIMIT + 1,
            }),
            _ => self.inner.call(alloc, call, blob),
        }
    }
}

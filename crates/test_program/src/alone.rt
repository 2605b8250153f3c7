use crate::due::comes_out;
use crate::machine::{Client, client_at};
use jop_target::MemTarget;
use keeper_records::MemKeeper;
use std::alloc::{AllocError, Global};

/// A client that keeps its tables in memory, and a target that it alone uses.
pub(crate) struct Alone {
    pub client: Client<MemKeeper>,
    pub target: MemTarget,
}

// Written out, as that of a client is.
impl Drop for Alone {
    fn drop(self) {
        let Alone {
            client: _,
            target: _,
        } = self;
    }
}

impl Alone {
    /// The target's first call has this moment, and each one is so much behind the last.
    pub(crate) fn new(alloc: Global, first: u64, step: u64) -> Result<Alone, AllocError> {
        let client = client_at(alloc, 5)?;
        let target = MemTarget::new(alloc, first, step);
        Ok(Alone { client, target })
    }

    /// Plays the command that a line says: whether it came out as it is to.
    pub(crate) fn comes_out(&mut self, alloc: Global, line: &str) -> Result<bool, AllocError> {
        comes_out(&mut self.client, alloc, &mut self.target, line)
    }

    /// Whether that was written on standard output, and nothing on standard error.
    pub(crate) fn has_printed(&self, text: &[u8]) -> bool {
        self.client.out.written() == text && self.client.err.written().is_empty()
    }

    /// Whether that was written on standard error, and nothing on standard output.
    pub(crate) fn has_told(&self, text: &[u8]) -> bool {
        self.client.err.written() == text && self.client.out.written().is_empty()
    }
}

ghost use Rattle.std.specs.Prelude.{◌≡◌, ◌++◌, ◌∷◌, [], OnOk, OnErr, IsOk, ◌≤◌, length};

use crate::change::Change;
use std::alloc::{AllocError, Global};
use std::marker::Model;

/// The changes that a run has made. The numbers in its diary point into this list, counted from 0.
#[derive(Debug, Drop)]
pub struct Changes {
    list: Vec<Change>,
}

impl Model for Changes {
    ghost use Rattle.std.specs.Prelude.{◌-◌, vec_len, vec_capacity};
    ghost use Rattle.local_store.specs.Ledger.{Ledger};

    ghost Value = { Ledger };

    ghost view = { λ c. record {
      changes = c.list.items;
      room = vec_capacity c.list - vec_len c.list;
    } };
}

impl Changes {
    pub fn new(alloc: Global) -> Changes
        ensures { result.changes ≡ [] }
    {
        Changes {
            list: Vec::new(alloc),
        }
    }

    pub fn len(&self) -> usize
        ensures { result ≡ length self.now.changes }
    {
        self.list.len()
    }

    pub fn as_slice(&self) -> &[Change]
        ensures { result.now ≡ self.now.changes }
    {
        self.list.as_slice()
    }

    /// Makes room for one change more, so that the next one can't be refused.
    pub fn reserve(&mut self) -> Result<(), AllocError>
        ensures same { self.new.changes ≡ self.old.changes }
        ensures room { OnOk result (1 ≤ self.new.room) }
    {
        self.list.reserve(1)?;
        Ok(())
    }

    pub fn push(&mut self, change: Change) -> Result<(), AllocError>
        ensures ok { OnOk result (self.new.changes ≡ self.old.changes ++ change ∷ []) }
        ensures err { OnErr result (self.new.changes ≡ self.old.changes) }
        ensures sure { 1 ≤ self.old.room → IsOk result }
    {
        self.list.push(change)?;
        Ok(())
    }
}

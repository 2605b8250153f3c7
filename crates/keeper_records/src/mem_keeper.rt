ghost use Rattle.std.specs.Prelude.{◌≡◌, OnOk, OnErr};
ghost use Rattle.keeper_records.specs.Memory.{IsSoundKept, failing_at, new_memory};

use crate::mem_records::MemRecords;
use crate::record_keeper::RecordKeeper;
use local_store::Tables;
use std::alloc::{AllocError, Global};

/// A keeper in memory, which tells what it keeps, with calls that are to fail.
pub type MemKeeper = RecordKeeper<MemRecords>;

impl RecordKeeper<MemRecords> {
    /// New tables, no blobs, and no call is to fail.
    pub fn new(alloc: Global) -> MemKeeper
        ensures { result.store ≡ new_memory }
    {
        RecordKeeper::over(MemRecords::new(alloc))
    }

    /// The call of its store of this number, counted from 1 at the first, answers `Fault` and changes
    /// nothing. A change is a call, or two or three: one for the next number and one for the row, if it
    /// needs them, and then the write.
    pub fn fail(&mut self, nth: u64) -> Result<(), AllocError>
        ensures ok { OnOk result (self.new.store ≡ failing_at nth self.old.store) }
        ensures err { OnErr result (self.new ≡ self.old) }
    {
        self.store.fail(nth)
    }

    /// The tables that it keeps. This is no call, and never fails.
    pub fn tables(&self) -> &Tables
        ensures tables { result.now ≡ self.now.store.kept.tables }
        ensures sound { IsSoundKept self.now.store.kept }
    {
        self.store.tables()
    }

    /// How often it has failed.
    pub fn faults(&self) -> u64
        ensures { result ≡ self.now.store.faults }
    {
        self.store.faults()
    }
}

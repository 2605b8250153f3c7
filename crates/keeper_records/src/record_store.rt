ghost use Rattle.std.specs.Prelude.{◌≡◌, All, IfOk, OnOk, OnErr, option_map};
ghost use Rattle.keeper.specs.Keepers.{KeeperNow, HasKeeperCause, IsOfKept, IsBlobOfKept, with_saved_blob};
ghost use Rattle.local_store.specs.Sound.{IsSound};
ghost use Rattle.keeper_records.specs.Stores.{IsSoundRowOf, IsRowOfKept, IsNextOfKept, Fit};
ghost use Rattle.keeper_records.specs.Writes.{IsSoundWrite, wrote};

use crate::write::Write;
use jop_base::{Bytes, Id, Seq};
use keeper::KeeperErr;
use local_store::{Row, Tables};
use std::alloc::Global;

/// Where tables and blobs are kept record by record: a database, or memory. A call that is refused changes nothing.
pub trait RecordStore: Drop {
    /// What it keeps, if it tells, and how often it has failed.
    ghost state: { Self → KeeperNow };

    /// The tables. A record that can't be read back, or that would make them unsound, is a fault.
    fn all(&mut self, alloc: Global) -> Result<Tables, KeeperErr>
        ensures sound { IfOk result (λ tables. IsSound tables) }
        ensures told { IfOk result (λ tables. IsOfKept (state self.old).kept tables) }
        ensures same { (state self.new).kept ≡ (state self.old).kept }
        ensures cause { HasKeeperCause (state self.old).faults result (state self.new).faults };

    /// The row of this id. None if there is none. A record that can't be read back, or is no sound row, is a fault.
    fn row(&mut self, alloc: Global, id: &Id) -> Result<Option<Row>, KeeperErr>
        ensures sound { IfOk result (λ row. IsSoundRowOf id.now row) }
        ensures told { IfOk result (λ row. IsRowOfKept (state self.old).kept id.now row) }
        ensures same { (state self.new).kept ≡ (state self.old).kept }
        ensures cause { HasKeeperCause (state self.old).faults result (state self.new).faults };

    /// The number of the next conflict note.
    fn next_conflict(&mut self, alloc: Global) -> Result<u64, KeeperErr>
        ensures told { IfOk result (λ number. IsNextOfKept (state self.old).kept number) }
        ensures same { (state self.new).kept ≡ (state self.old).kept }
        ensures cause { HasKeeperCause (state self.old).faults result (state self.new).faults };

    /// Makes all the writes, in order. A new conflict note whose number is past 2^63 - 1, or is another note's, is a
    /// fault.
    fn write(&mut self, alloc: Global, writes: &Seq<Write>) -> Result<(), KeeperErr>
        requires { All IsSoundWrite writes.now }
        ensures ok { OnOk result
            ((state self.new).kept ≡ option_map (wrote writes.now) (state self.old).kept) }
        ensures fit { OnOk result (Fit (state self.old).kept writes.now) }
        ensures err { OnErr result ((state self.new).kept ≡ (state self.old).kept) }
        ensures cause { HasKeeperCause (state self.old).faults result (state self.new).faults };

    /// The bytes of the resource of this id that were saved last. None if there are none.
    fn load_blob(&mut self, alloc: Global, id: &Id) -> Result<Option<Bytes>, KeeperErr>
        ensures told { IfOk result (λ bytes. IsBlobOfKept (state self.old).kept id.now bytes) }
        ensures same { (state self.new).kept ≡ (state self.old).kept }
        ensures cause { HasKeeperCause (state self.old).faults result (state self.new).faults };

    /// Saves the bytes of a resource, in place of those that are there.
    fn save_blob(&mut self, alloc: Global, id: &Id, bytes: &Bytes) -> Result<(), KeeperErr>
        ensures ok { OnOk result
            ((state self.new).kept
            ≡ option_map (with_saved_blob id.now bytes.now) (state self.old).kept) }
        ensures err { OnErr result ((state self.new).kept ≡ (state self.old).kept) }
        ensures cause { HasKeeperCause (state self.old).faults result (state self.new).faults };
}

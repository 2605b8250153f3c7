ghost use Rattle.std.specs.Prelude.{◌≡◌, IfOk, OnOk, OnErr, option_map};
ghost use Rattle.keeper.specs.Keepers.{KeeperNow, HasKeeperCause, IsOfKept, IsBlobOfKept, changed, with_saved_blob};
ghost use Rattle.local_store.specs.Sound.{IsSound, IsAllowed};

use crate::keeper_err::KeeperErr;
use jop_base::{Bytes, Id};
use local_store::{Change, Tables};
use std::alloc::Global;

/// Where a client's tables, and the bytes of its resources, are kept between two runs: a database, or
/// memory. A call that is refused changes nothing.
pub trait Keeper: Drop {
    /// What it keeps, if it tells, and how often it has failed.
    ghost state: { Self → KeeperNow };

    /// The tables. A record that can't be read, or that would make them unsound, is a fault.
    fn read(&mut self, alloc: Global) -> Result<Tables, KeeperErr>
        ensures sound { IfOk result (λ tables. IsSound tables) }
        ensures told { IfOk result (λ tables. IsOfKept (state self.old).kept tables) }
        ensures same { (state self.new).kept ≡ (state self.old).kept }
        ensures cause { HasKeeperCause (state self.old).faults result (state self.new).faults };

    /// Makes a change.
    fn commit(&mut self, alloc: Global, change: &Change) -> Result<(), KeeperErr>
        requires { IsAllowed change.now }
        ensures ok { OnOk result
            ((state self.new).kept ≡ option_map (changed change.now) (state self.old).kept) }
        ensures err { OnErr result ((state self.new).kept ≡ (state self.old).kept) }
        ensures cause { HasKeeperCause (state self.old).faults result (state self.new).faults };

    /// Makes a change to the tables that are kept, which it is given: what a change needs of them isn't read again.
    fn commit_in(
        &mut self,
        alloc: Global,
        tables: &Tables,
        change: &Change,
    ) -> Result<(), KeeperErr>
        requires sound { IsSound tables.now }
        requires told { IsOfKept (state self.old).kept tables.now }
        requires allowed { IsAllowed change.now }
        ensures ok { OnOk result
            ((state self.new).kept ≡ option_map (changed change.now) (state self.old).kept) }
        ensures err { OnErr result ((state self.new).kept ≡ (state self.old).kept) }
        ensures cause { HasKeeperCause (state self.old).faults result (state self.new).faults };

    /// The bytes of the resource of this id that were saved last. None if there are none.
    fn load_blob(&mut self, alloc: Global, id: &Id) -> Result<Option<Bytes>, KeeperErr>
        ensures told { IfOk result (λ bytes. IsBlobOfKept (state self.old).kept id.now bytes) }
        ensures same { (state self.new).kept ≡ (state self.old).kept }
        ensures cause { HasKeeperCause (state self.old).faults result (state self.new).faults };

    /// Saves the bytes of a resource, in place of those that are there.
    fn save_blob(&mut self, alloc: Global, id: &Id, bytes: &Bytes) -> Result<(), KeeperErr>
        ensures ok { OnOk result
            ((state self.new).kept
            ≡ option_map (with_saved_blob id.now bytes.now) (state self.old).kept) }
        ensures err { OnErr result ((state self.new).kept ≡ (state self.old).kept) }
        ensures cause { HasKeeperCause (state self.old).faults result (state self.new).faults };
}

impl Keeper for Box<dyn Keeper> {
    ghost state = { λ b. (Keeper-box b).state b.value };

    fn read(&mut self, alloc: Global) -> Result<Tables, KeeperErr> {
        (**self).read(alloc)
    }

    fn commit(&mut self, alloc: Global, change: &Change) -> Result<(), KeeperErr> {
        (**self).commit(alloc, change)
    }

    fn commit_in(
        &mut self,
        alloc: Global,
        tables: &Tables,
        change: &Change,
    ) -> Result<(), KeeperErr> {
        (**self).commit_in(alloc, tables, change)
    }

    fn load_blob(&mut self, alloc: Global, id: &Id) -> Result<Option<Bytes>, KeeperErr> {
        (**self).load_blob(alloc, id)
    }

    fn save_blob(&mut self, alloc: Global, id: &Id, bytes: &Bytes) -> Result<(), KeeperErr> {
        (**self).save_blob(alloc, id, bytes)
    }
}

impl<K: Keeper> Keeper for &mut K {
    ghost state = { λ k. K.state k.now };

    fn read(&mut self, alloc: Global) -> Result<Tables, KeeperErr> {
        (**self).read(alloc)
    }

    fn commit(&mut self, alloc: Global, change: &Change) -> Result<(), KeeperErr> {
        (**self).commit(alloc, change)
    }

    fn commit_in(
        &mut self,
        alloc: Global,
        tables: &Tables,
        change: &Change,
    ) -> Result<(), KeeperErr> {
        (**self).commit_in(alloc, tables, change)
    }

    fn load_blob(&mut self, alloc: Global, id: &Id) -> Result<Option<Bytes>, KeeperErr> {
        (**self).load_blob(alloc, id)
    }

    fn save_blob(&mut self, alloc: Global, id: &Id, bytes: &Bytes) -> Result<(), KeeperErr> {
        (**self).save_blob(alloc, id, bytes)
    }
}

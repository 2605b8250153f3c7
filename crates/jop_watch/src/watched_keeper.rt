use crate::waiting::Waiting;
use jop_base::{Bytes, Id};
use keeper::{Keeper, KeeperErr};
use local_store::{Change, Tables};
use std::alloc::Global;
use std::cell::Cell;

/// A keeper of which it is noted, when its tables are read, how much of them waits.
#[derive(Drop)]
pub struct WatchedKeeper<'a, K: Keeper> {
    pub keeper: K,
    pub waiting: &'a Cell<Waiting>,
}

impl<'a, K: Keeper> Keeper for WatchedKeeper<'a, K> {
    ghost state = { λ w. K.state w.keeper };

    fn read(&mut self, alloc: Global) -> Result<Tables, KeeperErr> {
        let tables = self.keeper.read(alloc)?;
        self.waiting.set(Waiting::of(&tables));
        Ok(tables)
    }

    fn commit(&mut self, alloc: Global, change: &Change) -> Result<(), KeeperErr> {
        self.keeper.commit(alloc, change)
    }

    fn commit_in(
        &mut self,
        alloc: Global,
        tables: &Tables,
        change: &Change,
    ) -> Result<(), KeeperErr> {
        self.keeper.commit_in(alloc, tables, change)
    }

    fn load_blob(&mut self, alloc: Global, id: &Id) -> Result<Option<Bytes>, KeeperErr> {
        self.keeper.load_blob(alloc, id)
    }

    fn save_blob(&mut self, alloc: Global, id: &Id, bytes: &Bytes) -> Result<(), KeeperErr> {
        self.keeper.save_blob(alloc, id, bytes)
    }
}

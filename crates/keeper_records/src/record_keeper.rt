ghost use Rattle.std.specs.Prelude.{◌≡◌, All, IfOk, option_and_then};
ghost use Rattle.std.specs.Option.{option_copied};
ghost use Rattle.keeper.specs.Keepers.{HasKeeperCause};
ghost use Rattle.local_store.specs.Sound.{IsSound};
ghost use Rattle.local_store.specs.Tables.{row_at};
ghost use Rattle.keeper_records.specs.Making.{row_needed};
ghost use Rattle.keeper_records.specs.Stores.{IsSoundRowFor, IsRowFor, IsNumberFor};

use crate::making::{needs_number, row_needed, writes_of};
use crate::record_store::RecordStore;
use jop_base::{Bytes, Id, let_go};
use keeper::{Keeper, KeeperErr};
use local_store::{Change, Row, Tables};
use std::alloc::Global;

/// A keeper over a store of records. What it keeps, and how often it has failed, are the store's. A change is one
/// write of the store, so it is made whole or not at all.
#[derive(Debug, Drop)]
pub struct RecordKeeper<S> {
    pub store: S,
}

impl<S: RecordStore> RecordKeeper<S> {
    pub fn over(store: S) -> RecordKeeper<S>
        ensures { result.store ≡ store }
    {
        RecordKeeper { store }
    }

    /// The row that the change needs, if it needs one.
    fn row_for(&mut self, alloc: Global, change: &Change) -> Result<Option<Row>, KeeperErr>
        ensures sound { IfOk result (λ row. IsSoundRowFor (row_needed change.now) row) }
        ensures told { IfOk result
            (λ row. IsRowFor (S.state self.old.store).kept change.now row) }
        ensures same { (S.state self.new.store).kept ≡ (S.state self.old.store).kept }
        ensures cause { HasKeeperCause
            (S.state self.old.store).faults result (S.state self.new.store).faults }
    {
        let id = match row_needed(change) {
            Some(id) => id,
            None => return Ok(None),
        };
        let row = self.store.row(alloc, &id)?;
        Ok(row)
    }

    /// The number of the next conflict note, if the change needs it, and else 0.
    fn number_for(&mut self, alloc: Global, change: &Change) -> Result<u64, KeeperErr>
        ensures told { IfOk result
            (λ number. IsNumberFor (S.state self.old.store).kept change.now number) }
        ensures same { (S.state self.new.store).kept ≡ (S.state self.old.store).kept }
        ensures cause { HasKeeperCause
            (S.state self.old.store).faults result (S.state self.new.store).faults }
    {
        if !needs_number(change) {
            return Ok(0);
        }
        let number = self.store.next_conflict(alloc)?;
        Ok(number)
    }
}

/// The row of these tables that the change needs, if it needs one.
#[tactic(auto, using(crate::proofs::Sound::found_row))]
fn row_in<'t>(tables: &'t Tables, change: &Change) -> Option<&'t Row>
    requires { IsSound tables.now }
    ensures row { option_copied result
        ≡ option_and_then (row_at tables.now) (row_needed change.now) }
    ensures sound { IsSoundRowFor (row_needed change.now) (option_copied result) }
{
    match row_needed(change) {
        Some(id) => tables.rows.at(&id),
        None => None,
    }
}

impl<S: RecordStore> Keeper for RecordKeeper<S> {
    ghost state = { λ k. S.state k.store };

    fn read(&mut self, alloc: Global) -> Result<Tables, KeeperErr> {
        let tables = self.store.all(alloc)?;
        Ok(tables)
    }

    #[tactic(auto, using(crate::proofs::Made::writes_are_sound, crate::proofs::Made::kept_is_changed))]
    fn commit(&mut self, alloc: Global, change: &Change) -> Result<(), KeeperErr> {
        let number = self.number_for(alloc, change)?;
        let row = self.row_for(alloc, change)?;
        let made = writes_of(alloc, change, row.as_ref(), number);
        let_go(row);
        let writes = made?;
        self.store.write(alloc, &writes)?;
        Ok(())
    }

    #[tactic(auto, using(crate::proofs::Made::writes_are_sound, crate::proofs::Made::kept_is_changed))]
    fn commit_in(
        &mut self,
        alloc: Global,
        tables: &Tables,
        change: &Change,
    ) -> Result<(), KeeperErr> {
        let row = row_in(tables, change);
        let writes = writes_of(alloc, change, row, tables.next_conflict)?;
        self.store.write(alloc, &writes)?;
        Ok(())
    }

    fn load_blob(&mut self, alloc: Global, id: &Id) -> Result<Option<Bytes>, KeeperErr> {
        let bytes = self.store.load_blob(alloc, id)?;
        Ok(bytes)
    }

    fn save_blob(&mut self, alloc: Global, id: &Id, bytes: &Bytes) -> Result<(), KeeperErr> {
        self.store.save_blob(alloc, id, bytes)?;
        Ok(())
    }
}

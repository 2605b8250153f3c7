ghost use Rattle.std.specs.Prelude.{◌≡◌, ◌≤◌, All, IfOk, OnOk, OnErr, Some, false, true};
ghost use Rattle.jop_outside.specs.Outside.{risen};
ghost use Rattle.keeper.specs.Keepers.{HasKeeperCause, blob_at, with_saved_blob};
ghost use Rattle.keeper_records.specs.Memory.{IsPlanned, IsSoundKept, failing_at, new_memory};
ghost use Rattle.local_store.specs.Sound.{IsSound};
ghost use Rattle.local_store.specs.Tables.{row_at};
ghost use Rattle.keeper_records.specs.Stores.{IsSoundRowOf, IsPlannedWrite};
ghost use Rattle.keeper_records.specs.Writes.{IsSoundWrite, wrote, after_writes, all_fit};

use crate::record_store::RecordStore;
use crate::write::Write;
use crate::writing::make_all;
use jop_base::{Bytes, Copied, Id, Seq, let_go};
use jop_outside::{Faults, Plan};
use keeper::{Blob, KeeperErr};
use local_store::{Row, Tables};
use std::alloc::{AllocError, Global};
use std::marker::Model;
use std::mem;

/// A store of records in memory, which tells what it keeps, with calls that are to fail.
#[derive(Debug, Drop)]
pub struct MemRecords {
    tables: Tables,
    blobs: Seq<Blob>,
    faults: Faults,
    plan: Plan,
}

impl Model for MemRecords {
    ghost use Rattle.keeper_records.specs.Memory.{MemKept, IsSoundKept};

    ghost Value = { MemKept };

    ghost view = { λ m. record {
      kept = record { tables = m.tables; blobs = m.blobs };
      faults = m.faults;
      plan = m.plan;
    } };

    ghost invariant = { λ m. IsSoundKept (record { tables = m.tables; blobs = m.blobs }) };
}

impl MemRecords {
    /// New tables, no blobs, and no call is to fail.
    pub fn new(alloc: Global) -> MemRecords
        ensures { result ≡ new_memory }
    {
        MemRecords {
            tables: Tables::new(alloc),
            blobs: Seq::new(alloc),
            faults: Faults::new(),
            plan: Plan::new(alloc),
        }
    }

    /// The call of this number, counted from 1 at the first, answers `Fault` and changes nothing.
    pub fn fail(&mut self, nth: u64) -> Result<(), AllocError>
        ensures ok { OnOk result (self.new ≡ failing_at nth self.old) }
        ensures err { OnErr result (self.new ≡ self.old) }
    {
        self.plan.fail(nth, false)
    }

    /// The tables that it keeps. This is no call, and never fails.
    pub fn tables(&self) -> &Tables
        ensures tables { result.now ≡ self.now.kept.tables }
        ensures sound { IsSoundKept self.now.kept }
    {
        &self.tables
    }

    /// How often it has failed.
    pub fn faults(&self) -> u64
        ensures { result ≡ self.now.faults }
    {
        self.faults.count()
    }

    /// Counts a call, which fails if that is planned.
    fn begin(&mut self) -> Result<(), KeeperErr>
        ensures planned { IsPlanned self.old.plan result self.new.plan }
        ensures cause { HasKeeperCause self.old.faults result self.new.faults }
        ensures same { self.new.kept ≡ self.old.kept }
    {
        let fate = self.plan.fate();
        self.plan.count_call();
        if fate.is_some() {
            return Err(self.fault());
        }
        Ok(())
    }

    /// It has failed once more.
    fn fault(&mut self) -> KeeperErr
        ensures fault { result ≡ KeeperErr.Fault }
        ensures risen { self.new ≡ record self.old { faults = risen self.old.faults } }
        ensures later { self.old.faults ≤ self.new.faults }
    {
        self.faults.rise();
        KeeperErr::Fault
    }

    /// The tables with the writes.
    fn written(&self, alloc: Global, writes: &Seq<Write>) -> Result<Tables, KeeperErr>
        requires { All IsSoundWrite writes.now }
        ensures ok { IfOk result (λ tables. tables ≡ after_writes self.now.kept.tables writes.now) }
        ensures sound { IfOk result (λ tables. IsSound tables) }
        ensures fit { OnOk result (all_fit self.now.kept.tables writes.now ≡ true) }
        ensures fault { result ≡ Err KeeperErr.Fault
            → all_fit self.now.kept.tables writes.now ≡ false }
    {
        let mut tables = self.tables.copy(alloc)?;
        match make_all(alloc, &mut tables, writes.as_slice()) {
            Ok(()) => Ok(tables),
            Err(refusal) => {
                let_go(tables);
                Err(refusal)
            }
        }
    }

    /// These are its tables from now on.
    fn keep(&mut self, tables: Tables)
        requires { IsSound tables }
        ensures { self.new ≡ record self.old { kept = record self.old.kept { tables = tables } } }
    {
        let_go(mem::replace(&mut self.tables, tables));
    }
}

impl RecordStore for MemRecords {
    ghost use Rattle.std.specs.Prelude.{Some};

    ghost state = { λ m. record { kept = Some m.kept; faults = m.faults } };

    fn all(&mut self, alloc: Global) -> Result<Tables, KeeperErr>
        ensures sound { IfOk result (λ tables. IsSound tables) }
        ensures told { IfOk result (λ tables. tables ≡ self.old.kept.tables) }
        ensures same { self.new.kept ≡ self.old.kept }
        ensures cause { HasKeeperCause self.old.faults result self.new.faults }
        ensures planned { IsPlanned self.old.plan result self.new.plan }
    {
        self.begin()?;
        Ok(self.tables.copy(alloc)?)
    }

    #[tactic(auto, using(crate::proofs::Sound::found_row))]
    fn row(&mut self, alloc: Global, id: &Id) -> Result<Option<Row>, KeeperErr>
        ensures sound { IfOk result (λ row. IsSoundRowOf id.now row) }
        ensures told { IfOk result (λ row. row ≡ row_at self.old.kept.tables id.now) }
        ensures same { self.new.kept ≡ self.old.kept }
        ensures cause { HasKeeperCause self.old.faults result self.new.faults }
        ensures planned { IsPlanned self.old.plan result self.new.plan }
    {
        self.begin()?;
        let row = match self.tables.rows.at(id) {
            Some(row) => row.copy(alloc)?,
            None => return Ok(None),
        };
        Ok(Some(row))
    }

    fn next_conflict(&mut self, _alloc: Global) -> Result<u64, KeeperErr>
        ensures told { IfOk result (λ number. number ≡ self.old.kept.tables.next_conflict) }
        ensures same { self.new.kept ≡ self.old.kept }
        ensures cause { HasKeeperCause self.old.faults result self.new.faults }
        ensures planned { IsPlanned self.old.plan result self.new.plan }
    {
        self.begin()?;
        Ok(self.tables.next_conflict)
    }

    fn write(&mut self, alloc: Global, writes: &Seq<Write>) -> Result<(), KeeperErr>
        requires { All IsSoundWrite writes.now }
        ensures ok { OnOk result (self.new.kept ≡ wrote writes.now self.old.kept) }
        ensures fit { OnOk result (all_fit self.old.kept.tables writes.now ≡ true) }
        ensures err { OnErr result (self.new.kept ≡ self.old.kept) }
        ensures cause { HasKeeperCause self.old.faults result self.new.faults }
        ensures planned { IsPlannedWrite self.old.kept.tables writes.now
            self.old.plan result self.new.plan }
    {
        self.begin()?;
        match self.written(alloc, writes) {
            Ok(tables) => self.keep(tables),
            Err(KeeperErr::Fault) => return Err(self.fault()),
            Err(KeeperErr::NoMemory) => return Err(KeeperErr::NoMemory),
        }
        Ok(())
    }

    fn load_blob(&mut self, alloc: Global, id: &Id) -> Result<Option<Bytes>, KeeperErr>
        ensures told { IfOk result (λ bytes. bytes ≡ blob_at self.old.kept id.now) }
        ensures same { self.new.kept ≡ self.old.kept }
        ensures cause { HasKeeperCause self.old.faults result self.new.faults }
        ensures planned { IsPlanned self.old.plan result self.new.plan }
    {
        self.begin()?;
        match self.blobs.at(id) {
            Some(blob) => Ok(Some(blob.bytes.copy(alloc)?)),
            None => Ok(None),
        }
    }

    #[tactic(auto, using(crate::proofs::KeptBlobs::blobs_kept))]
    fn save_blob(&mut self, alloc: Global, id: &Id, bytes: &Bytes) -> Result<(), KeeperErr>
        ensures ok { OnOk result (self.new.kept ≡ with_saved_blob id.now bytes.now self.old.kept) }
        ensures err { OnErr result (self.new.kept ≡ self.old.kept) }
        ensures cause { HasKeeperCause self.old.faults result self.new.faults }
        ensures planned { IsPlanned self.old.plan result self.new.plan }
    {
        self.begin()?;
        let bytes = bytes.copy(alloc)?;
        self.blobs.put(Blob { id: *id, bytes })?;
        Ok(())
    }
}

ghost use Rattle.std.specs.Prelude.{◌≡◌, ◌≤◌, All, IfOk, OnErr, OnOk, None, Some, codes, decimal, true};
ghost use Rattle.std.specs.List.{list_all};
ghost use Rattle.keeper.specs.Keepers.{HasKeeperCause};
ghost use Rattle.local_store.specs.Sound.{IsSound};
ghost use Rattle.keeper_records.specs.Stores.{IsSoundRowOf};
ghost use Rattle.keeper_records.specs.Writes.{IsSoundWrite, has_room};
ghost use Rattle.keeper_sqlite.specs.Answers.{BlobShown, KeyShown, OnlyReads, RowShown, TablesShown, database_now};
ghost use Rattle.keeper_sqlite.specs.Faults.{IsCounted};
ghost use Rattle.keeper_sqlite.specs.Speaking.{MadeNoMore, MakesAll};
ghost use Rattle.keeper_sqlite.specs.Statements.{all_statements, blob_statement};

use crate::opened::Opened;
use crate::opener::Opener;
use crate::reading::{AllTables, BlobOf, RowOf, ValueOf};
use crate::work::Work;
use crate::writing::{Blob, Writes};
use jop_base::{Bytes, Id, Seq};
use jop_outside::Faults;
use keeper::KeeperErr;
use keeper_columns::read_number;
use keeper_file::Trouble;
use keeper_records::{RecordStore, Write, have_room};
use local_store::{Row, Tables};
use std::alloc::Global;

/// A store of records in a database, which is opened at the first call, and closed when the store
/// is let go.
///
/// It tells nothing of the records, since no clause says what a statement does. What its clauses
/// say is which statements it makes, and that what it answers is what the database shows.
pub struct SqlRecords<O: Opener> {
    opener: O,
    database: Option<O::Database>,
    /// How often it has failed.
    faults: Faults,
}

impl<O: Opener> Drop for SqlRecords<O> {
    fn drop(self) {
        let SqlRecords {
            opener,
            database,
            faults: _,
        } = self;
        if let Some(database) = database {
            opener.close(database);
        }
    }
}

impl<O: Opener> SqlRecords<O> {
    /// A store in the database that is opened so. It isn't opened yet.
    pub fn over(opener: O) -> SqlRecords<O>
        ensures faults { result.faults ≡ 0 }
        ensures opener { result.opener ≡ opener }
        ensures database { result.database ≡ None }
    {
        SqlRecords {
            opener,
            database: None,
            faults: Faults::new(),
        }
    }

    /// How often it has failed.
    pub fn faults(&self) -> u64
        ensures { result ≡ self.now.faults }
    {
        self.faults.count()
    }

    /// The database, if it was opened. It isn't closed.
    pub fn into_database(self) -> Option<O::Database>
        ensures { result ≡ self.database }
    {
        let SqlRecords {
            opener: _,
            database,
            faults: _,
        } = self;
        database
    }

    /// Opens the database, if it isn't open yet.
    fn open(&mut self, alloc: Global) -> Result<(), Trouble>
        ensures faults { self.new.faults ≡ self.old.faults }
        ensures same { database_now O.Database.state (O.opens self.new.opener) self.new.database
            ≡ database_now O.Database.state (O.opens self.old.opener) self.old.database }
    {
        if self.database.is_none() {
            self.database = Some(self.opener.open(alloc)?);
        }
        Ok(())
    }

    /// Does work on the database, which is opened if it isn't open yet.
    #[tactic(auto, using(crate::proofs::Speaking::unsaid))]
    fn on_database<W: Work>(&mut self, alloc: Global, work: &W) -> Result<W::Answer, Trouble>
        requires { W.is_fit work.now }
        ensures faults { self.new.faults ≡ self.old.faults }
        ensures ok { IfOk result (λ answer. W.answers work.now
            (database_now O.Database.state (O.opens self.old.opener) self.old.database) answer
            (database_now O.Database.state (O.opens self.new.opener) self.new.database)) }
        ensures err { OnErr result (MadeNoMore
            (database_now O.Database.state (O.opens self.old.opener) self.old.database).spoken
            (database_now O.Database.state (O.opens self.new.opener) self.new.database).spoken) }
    {
        self.open(alloc)?;
        match &mut self.database {
            Some(database) => database.do_work(alloc, work),
            None => Err(Trouble::Fault),
        }
    }

    /// The row of an id.
    #[tactic(auto, using(crate::proofs::Speaking::unsaid))]
    fn row_of(&mut self, alloc: Global, id: &Id) -> Result<Option<Row>, Trouble>
        ensures faults { self.new.faults ≡ self.old.faults }
        ensures sound { IfOk result (λ row. IsSoundRowOf id.now row) }
        ensures shown { IfOk result (λ row. RowShown
            (database_now O.Database.state (O.opens self.old.opener) self.old.database).shows
            id.now row) }
        ensures reads { OnlyReads
            (database_now O.Database.state (O.opens self.old.opener) self.old.database) result
            (database_now O.Database.state (O.opens self.new.opener) self.new.database) }
    {
        let row = match self.on_database(alloc, &RowOf { id })? {
            Some(row) => row,
            None => return Ok(None),
        };
        if row.id != *id {
            return Err(Trouble::Fault);
        }
        Ok(Some(row))
    }

    #[tactic(auto, using(crate::proofs::Speaking::unsaid))]
    fn number(&mut self, alloc: Global) -> Result<u64, Trouble>
        ensures faults { self.new.faults ≡ self.old.faults }
        ensures shown { IfOk result (λ number. KeyShown
            (database_now O.Database.state (O.opens self.old.opener) self.old.database).shows
            (codes "next_conflict") (Some (decimal number))) }
        ensures reads { OnlyReads
            (database_now O.Database.state (O.opens self.old.opener) self.old.database) result
            (database_now O.Database.state (O.opens self.new.opener) self.new.database) }
    {
        let key = "next_conflict";
        let digits = self.on_database(alloc, &ValueOf { key })?;
        let number = read_number(alloc, digits.as_slice())?;
        Ok(number)
    }

    #[tactic(auto, using(crate::proofs::Speaking::unsaid))]
    fn write_all(&mut self, alloc: Global, writes: &[Write]) -> Result<(), Trouble>
        requires { All IsSoundWrite writes.now }
        ensures faults { self.new.faults ≡ self.old.faults }
        ensures fit { OnOk result (list_all has_room writes.now ≡ true) }
        ensures makes { MakesAll (all_statements writes.now)
            (database_now O.Database.state (O.opens self.old.opener) self.old.database).spoken
            result
            (database_now O.Database.state (O.opens self.new.opener) self.new.database).spoken }
    {
        if !have_room(writes) {
            return Err(Trouble::Fault);
        }
        self.on_database(alloc, &Writes { writes })?;
        Ok(())
    }
}

/// The answer, or one fault more.
fn counted<T: Drop>(faults: &mut Faults, answer: Result<T, Trouble>) -> Result<T, KeeperErr>
    ensures counts { IsCounted faults.old answer result faults.new }
    ensures later { faults.old ≤ faults.new }
{
    match answer {
        Ok(value) => Ok(value),
        Err(Trouble::NoMemory) => Err(KeeperErr::NoMemory),
        Err(Trouble::Fault | Trouble::Busy) => {
            faults.rise();
            Err(KeeperErr::Fault)
        }
    }
}

impl<O: Opener> RecordStore for SqlRecords<O> {
    ghost state = { λ s. record { kept = None; faults = s.faults } };

    fn all(&mut self, alloc: Global) -> Result<Tables, KeeperErr>
        ensures sound { IfOk result (λ tables. IsSound tables) }
        ensures cause { HasKeeperCause self.old.faults result self.new.faults }

        ensures shown { IfOk result (λ tables. TablesShown
            (database_now O.Database.state (O.opens self.old.opener) self.old.database).shows
            tables) }
        ensures reads { OnlyReads
            (database_now O.Database.state (O.opens self.old.opener) self.old.database) result
            (database_now O.Database.state (O.opens self.new.opener) self.new.database) }
    {
        let answer = self.on_database(alloc, &AllTables);
        counted(&mut self.faults, answer)
    }

    fn row(&mut self, alloc: Global, id: &Id) -> Result<Option<Row>, KeeperErr>
        ensures sound { IfOk result (λ row. IsSoundRowOf id.now row) }
        ensures cause { HasKeeperCause self.old.faults result self.new.faults }

        ensures shown { IfOk result (λ row. RowShown
            (database_now O.Database.state (O.opens self.old.opener) self.old.database).shows
            id.now row) }
        ensures reads { OnlyReads
            (database_now O.Database.state (O.opens self.old.opener) self.old.database) result
            (database_now O.Database.state (O.opens self.new.opener) self.new.database) }
    {
        let answer = self.row_of(alloc, id);
        counted(&mut self.faults, answer)
    }

    fn next_conflict(&mut self, alloc: Global) -> Result<u64, KeeperErr>
        ensures cause { HasKeeperCause self.old.faults result self.new.faults }

        ensures shown { IfOk result (λ number. KeyShown
            (database_now O.Database.state (O.opens self.old.opener) self.old.database).shows
            (codes "next_conflict") (Some (decimal number))) }
        ensures reads { OnlyReads
            (database_now O.Database.state (O.opens self.old.opener) self.old.database) result
            (database_now O.Database.state (O.opens self.new.opener) self.new.database) }
    {
        let answer = self.number(alloc);
        counted(&mut self.faults, answer)
    }

    fn write(&mut self, alloc: Global, writes: &Seq<Write>) -> Result<(), KeeperErr>
        requires { All IsSoundWrite writes.now }
        ensures fit { OnOk result (list_all has_room writes.now ≡ true) }
        ensures cause { HasKeeperCause self.old.faults result self.new.faults }

        ensures makes { MakesAll (all_statements writes.now)
            (database_now O.Database.state (O.opens self.old.opener) self.old.database).spoken
            result
            (database_now O.Database.state (O.opens self.new.opener) self.new.database).spoken }
    {
        let answer = self.write_all(alloc, writes.as_slice());
        counted(&mut self.faults, answer)
    }

    fn load_blob(&mut self, alloc: Global, id: &Id) -> Result<Option<Bytes>, KeeperErr>
        ensures cause { HasKeeperCause self.old.faults result self.new.faults }

        ensures shown { IfOk result (λ bytes. BlobShown
            (database_now O.Database.state (O.opens self.old.opener) self.old.database).shows
            id.now bytes) }
        ensures reads { OnlyReads
            (database_now O.Database.state (O.opens self.old.opener) self.old.database) result
            (database_now O.Database.state (O.opens self.new.opener) self.new.database) }
    {
        let answer = self.on_database(alloc, &BlobOf { id });
        counted(&mut self.faults, answer)
    }

    fn save_blob(&mut self, alloc: Global, id: &Id, bytes: &Bytes) -> Result<(), KeeperErr>
        ensures cause { HasKeeperCause self.old.faults result self.new.faults }

        ensures makes { MakesAll (blob_statement id.now bytes.now)
            (database_now O.Database.state (O.opens self.old.opener) self.old.database).spoken
            result
            (database_now O.Database.state (O.opens self.new.opener) self.new.database).spoken }
    {
        let answer = self.on_database(alloc, &Blob { id, bytes });
        counted(&mut self.faults, answer)
    }
}

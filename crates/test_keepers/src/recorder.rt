//! A database in memory that keeps what is said to it, and shows tables without a row.

ghost use Rattle.std.specs.Prelude.{◌≡◌, ◌∷◌, [], IfOk, OnErr, OnOk, None};
ghost use Rattle.sqlite.specs.Values.{bound, bound_value};
ghost use Rattle.sqlite_value.specs.Value.{owned};
ghost use Rattle.keeper_sqlite.specs.Speaking.{saying};
ghost use Rattle.test_keepers.specs.Recording.{recorded};

use jop_base::Seq;
use keeper_file::{Layout, Trouble};
use keeper_sqlite::{Database, FromColumns, Opened, Opener, Query, Said, Statement, Work};
use sqlite::types::ValueRef;
use sqlite_value::row::Row;
use std::alloc::Global;

/// A database in memory that keeps what is said to it, and shows tables without a row.
#[derive(Drop)]
pub(crate) struct Recorder {
    alloc: Global,
    /// The statements that stand. Those that were made together are one list.
    pub made: Seq<Seq<Said>>,
    /// Those of the transaction that is open.
    pub waiting: Option<Seq<Said>>,
    /// How many calls it takes before it refuses one.
    pub calls: u64,
}

/// A value as a statement is run with it. A float is none that this program writes.
fn bound_of(value: ValueRef<'_>) -> Result<ValueRef<'_>, Trouble>
    ensures { IfOk result (λ kept. owned kept ≡ bound_value (owned value.entry)) }
{
    match value {
        ValueRef::Null => Ok(ValueRef::Null),
        ValueRef::Int(number) => Ok(ValueRef::Int(number)),
        ValueRef::Real(_) => Err(Trouble::Fault),
        ValueRef::Text(text) => Ok(ValueRef::Text(text)),
        ValueRef::Blob(bytes) => Ok(ValueRef::Blob(bytes)),
    }
}

/// The values that a statement is run with.
fn values_of(alloc: Global, values: &[ValueRef<'_>]) -> Result<Row, Trouble>
    ensures { IfOk result (λ row. row ≡ bound values.now) }
{
    let mut row = Row::new(alloc);
    for value in values {
        let value = bound_of(*value)?;
        row.push(value)?;
    }
    Ok(row)
}

/// A list of one.
fn alone(alloc: Global, said: Said) -> Result<Seq<Said>, Trouble>
    ensures { IfOk result (λ list. list ≡ said ∷ []) }
{
    let mut list = Seq::new(alloc);
    list.push(said)?;
    Ok(list)
}

impl Recorder {
    /// Nothing was said to it, and it refuses the call behind so many.
    pub fn new(alloc: Global, calls: u64) -> Recorder
        ensures { (result.made ≡ []) × (result.waiting ≡ None) }
    {
        Recorder {
            alloc,
            made: Seq::new(alloc),
            waiting: None,
            calls,
        }
    }

    /// Counts a call, which may be refused.
    fn count(&mut self) -> Result<(), Trouble>
        ensures { (self.new.made ≡ self.old.made) × (self.new.waiting ≡ self.old.waiting) }
    {
        if self.calls == 0 {
            return Err(Trouble::Fault);
        }
        self.calls -= 1;
        Ok(())
    }

    #[tactic(auto, using(crate::proofs::Recorded::said_alone, crate::proofs::Recorded::said_within))]
    fn keep(&mut self, line: Said) -> Result<(), Trouble>
        ensures ok { OnOk result ((recorded self.new.made self.new.waiting).spoken
            ≡ saying (line ∷ []) (recorded self.old.made self.old.waiting).spoken) }
        ensures err { OnErr result
            ((self.new.made ≡ self.old.made) × (self.new.waiting ≡ self.old.waiting)) }
    {
        match &mut self.waiting {
            Some(waiting) => waiting.push(line)?,
            None => self.made.push(alone(self.alloc, line)?)?,
        }
        Ok(())
    }
}

impl Database for Recorder {
    ghost state = { λ r. recorded r.made r.waiting };

    fn run(&mut self, statement: Statement, values: &[ValueRef<'_>]) -> Result<(), Trouble> {
        self.count()?;
        let values = values_of(self.alloc, values)?;
        self.keep(Said { statement, values })?;
        Ok(())
    }

    #[tactic(auto, unfolding(keeper_sqlite::specs::Speaking::after_begin, keeper_sqlite::specs::Speaking::IsShut))]
    fn begin(&mut self) -> Result<(), Trouble> {
        self.count()?;
        if self.waiting.is_some() {
            return Err(Trouble::Fault);
        }
        self.waiting = Some(Seq::new(self.alloc));
        Ok(())
    }

    #[tactic(auto, using(crate::proofs::Recorded::committed), unfolding(keeper_sqlite::specs::Speaking::standing_in))]
    fn commit(&mut self) -> Result<(), Trouble> {
        self.count()?;
        match self.waiting.take() {
            Some(waiting) => self.made.push(waiting)?,
            None => return Err(Trouble::Fault),
        }
        Ok(())
    }

    #[tactic(auto, unfolding(keeper_sqlite::specs::Speaking::after_roll_back))]
    fn roll_back(&mut self) {
        let _ = self.waiting.take();
    }

    fn first<T: FromColumns>(
        &mut self,
        _alloc: Global,
        _query: Query,
        _values: &[ValueRef<'_>],
    ) -> Result<Option<T>, Trouble> {
        Ok(None)
    }

    fn all<T: FromColumns>(&mut self, alloc: Global, _query: Query) -> Result<Seq<T>, Trouble> {
        Ok(Seq::new(alloc))
    }

    fn layout(&mut self) -> Result<Layout, Trouble> {
        Ok(Layout::Tables)
    }
}

impl Opened for Recorder {
    ghost state = { λ r. recorded r.made r.waiting };

    fn do_work<W: Work>(&mut self, alloc: Global, work: &W) -> Result<W::Answer, Trouble> {
        work.done(alloc, self)
    }
}

/// What opens a recorder that refuses the call behind so many.
#[derive(Drop)]
pub(crate) struct NewRecorder {
    pub calls: u64,
}

impl Opener for NewRecorder {
    type Database = Recorder;

    ghost opens = { λ _. recorded [] None };

    fn open(&self, alloc: Global) -> Result<Recorder, Trouble> {
        Ok(Recorder::new(alloc, self.calls))
    }

    fn close(&self, database: Recorder) {
        let _ = database;
    }
}

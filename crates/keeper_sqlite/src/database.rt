//! A database as this crate speaks to it. What stands in a file, no clause can say: so an open file
//! tells nothing, and each call on it is one or two of the database's own. No proof above carries
//! the clauses of the database itself.

ghost use Rattle.std.specs.Prelude.{◌≡◌, All, IfOk, IfSome, OnErr, OnOk};
ghost use Rattle.sqlite.specs.Values.{bound};
ghost use Rattle.keeper_sqlite.specs.Answers.{AreShown, DatabaseNow, IsFirstShown, IsLayoutShown, untold};
ghost use Rattle.keeper_sqlite.specs.Speaking.{OpensTransaction, Says, after_commit, after_roll_back, standing_in};
ghost use Rattle.keeper_sqlite.specs.Statements.{said};

use crate::answer::take_all;
use crate::columns::FromColumns;
use crate::query::Query;
use crate::statement::Statement;
use crate::statements::{BEGIN, COMMIT, ROLL_BACK};
use jop_base::Seq;
use keeper_file::{Layout, Trouble, layout_of};
use sqlite::types::ValueRef;
use sqlite::{Alter, Connection, Error, Row, Rows};
use std::alloc::Global;

/// A database: an open file, or one in memory that keeps what it is told.
pub trait Database: Drop {
    /// What was said to it, what it shows, and what stands in it, if it tells.
    ghost state: { Self → DatabaseNow };

    /// Says a statement with these values. It stands at once or, if a transaction is open, with
    /// that.
    fn run(&mut self, statement: Statement, values: &[ValueRef<'_>]) -> Result<(), Trouble>
        ensures { Says (said statement (bound values.now))
            (state self.old).spoken result (state self.new).spoken };

    /// Begins a transaction. It is refused where one is open.
    fn begin(&mut self) -> Result<(), Trouble>
        ensures ok { OnOk result
            (OpensTransaction (state self.old).spoken (state self.new).spoken) }
        ensures err { OnErr result
            (standing_in (state self.new).spoken ≡ standing_in (state self.old).spoken) };

    /// What waits stands, and the transaction is over.
    fn commit(&mut self) -> Result<(), Trouble>
        ensures ok { OnOk result
            ((state self.new).spoken ≡ after_commit (state self.old).spoken) }
        ensures err { OnErr result
            (standing_in (state self.new).spoken ≡ standing_in (state self.old).spoken) };

    /// What waits is forgotten, and no transaction is open, whatever fails.
    fn roll_back(&mut self)
        ensures { (state self.new).spoken ≡ after_roll_back (state self.old).spoken };

    /// What the first row stands for that answers a query. None if there is none.
    fn first<T: FromColumns>(
        &mut self,
        alloc: Global,
        query: Query,
        values: &[ValueRef<'_>],
    ) -> Result<Option<T>, Trouble>
        ensures shown { IfOk result (λ value.
            IsFirstShown T.stands (state self.old).shows query (bound values.now) value) }
        ensures sound { IfOk result (λ value. IfSome value T.is_sound) }
        ensures same { state self.new ≡ state self.old };

    /// What all rows stand for that answer a query, in their order. They are read one after the
    /// other, so that no two are in memory.
    fn all<T: FromColumns>(&mut self, alloc: Global, query: Query) -> Result<Seq<T>, Trouble>
        ensures shown { IfOk result (λ values.
            AreShown T.stands (state self.old).shows query values) }
        ensures sound { IfOk result (λ values. All T.is_sound values) }
        ensures same { state self.new ≡ state self.old };

    /// What stands in it.
    fn layout(&mut self) -> Result<Layout, Trouble>
        ensures shown { IfOk result (λ found. IsLayoutShown (state self.old).layout found) }
        ensures same { state self.new ≡ state self.old };
}

// ---- the calls of the database itself, without their clauses

fn execute<S: Alter>(
    database: &mut Connection<S>,
    text: &str,
    values: &[ValueRef<'_>],
) -> Result<(), Trouble> {
    database.execute(text, values)?;
    Ok(())
}

fn first_row<S: Alter>(
    database: &mut Connection<S>,
    text: &str,
    values: &[ValueRef<'_>],
) -> Result<Option<Row>, Trouble> {
    match database.query_row(text, values) {
        Ok(row) => Ok(Some(row)),
        Err(Error::QueryReturnedNoRows) => Ok(None),
        Err(error) => Err(error.into()),
    }
}

fn rows_of<'a, S: Alter>(
    database: &'a mut Connection<S>,
    text: &str,
) -> Result<Rows<'a, S>, Trouble> {
    Ok(database.query(text, &[])?)
}

impl<S: Alter + Drop> Database for Connection<S> {
    ghost state = { λ _. untold };

    #[tactic(auto, unfolding(crate::specs::Speaking::saying))]
    fn run(&mut self, statement: Statement, values: &[ValueRef<'_>]) -> Result<(), Trouble> {
        execute(self, statement.text(), values)?;
        Ok(())
    }

    #[tactic(auto, unfolding(crate::specs::Speaking::after_begin, crate::specs::Speaking::IsShut))]
    fn begin(&mut self) -> Result<(), Trouble> {
        execute(self, BEGIN, &[])?;
        Ok(())
    }

    #[tactic(auto, unfolding(crate::specs::Speaking::after_commit))]
    fn commit(&mut self) -> Result<(), Trouble> {
        execute(self, COMMIT, &[])?;
        Ok(())
    }

    /// The database ends the transaction also where it can't read this statement, for want of
    /// memory or because its disk failed.
    #[tactic(auto, unfolding(crate::specs::Speaking::after_roll_back))]
    fn roll_back(&mut self) {
        let _ = execute(self, ROLL_BACK, &[]);
    }

    fn first<T: FromColumns>(
        &mut self,
        alloc: Global,
        query: Query,
        values: &[ValueRef<'_>],
    ) -> Result<Option<T>, Trouble> {
        match first_row(self, query.text(), values)? {
            Some(row) => Ok(Some(T::from_columns(alloc, &row)?)),
            None => Ok(None),
        }
    }

    fn all<T: FromColumns>(&mut self, alloc: Global, query: Query) -> Result<Seq<T>, Trouble> {
        let mut answer = rows_of(self, query.text())?;
        let values = take_all::<T, _>(alloc, &mut answer)?;
        Ok(values)
    }

    fn layout(&mut self) -> Result<Layout, Trouble> {
        let found = layout_of(self)?;
        Ok(found)
    }
}

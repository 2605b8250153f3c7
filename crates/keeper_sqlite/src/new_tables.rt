//! The tables of a new file.

ghost use Rattle.std.specs.Prelude.{◌≡◌, [], ◌∷◌, All, IfOk, OnErr, OnOk, ⊤};
ghost use Rattle.local_store.specs.Sound.{IsSound};
ghost use Rattle.local_store.specs.Tables.{new_tables};
ghost use Rattle.keeper_records.specs.Writes.{IsSoundWrite};
ghost use Rattle.keeper_sqlite.specs.Opening.{FillsBlank, HasTables};
ghost use Rattle.keeper_sqlite.specs.Speaking.{IsInTransaction, MadeNoMore, Says, standing_in};
ghost use Rattle.keeper_sqlite.specs.Statements.{all_statements, bare_statements, first_statements, key_writes, saying_bare, table_statements};

use crate::database::Database;
use crate::statement::Statement;
use crate::together::{Job, together};
use crate::work::Work;
use crate::writing::make_all;
use jop_base::{Copied, Seq};
use keeper_file::{Layout, Trouble};
use keeper_records::Write;
use local_store::Tables;
use std::alloc::{AllocError, Global};

const MAKE_TABLES: [Statement; 5] = [
    Statement::MakeMeta,
    Statement::MakeRows,
    Statement::MakeDeletions,
    Statement::MakeConflicts,
    Statement::MakeBlobs,
];

/// What the keys of a database hold that has these tables.
fn key_writes(alloc: Global, tables: &Tables) -> Result<Seq<Write>, AllocError>
    requires { IsSound tables.now }
    ensures writes { IfOk result (λ writes. writes ≡ key_writes tables.now) }
    ensures sound { IfOk result (λ writes. All IsSoundWrite writes) }
{
    let mut writes = Seq::new(alloc);
    writes.push(Write::SetNext(tables.next_conflict))?;
    writes.push(Write::SetContext(tables.context.copy(alloc)?))?;
    writes.push(Write::SetInfo(tables.info.copy(alloc)?))?;
    Ok(writes)
}

/// What the keys of a new database hold.
fn first_writes(alloc: Global) -> Result<Seq<Write>, AllocError>
    ensures writes { IfOk result (λ writes. writes ≡ key_writes new_tables) }
    ensures sound { IfOk result (λ writes. All IsSoundWrite writes) }
{
    let tables = Tables::new(alloc);
    key_writes(alloc, &tables)
}

/// Says statements that have no values, in order.
#[tactic(auto, using(crate::proofs::Speaking::within_more, crate::proofs::Speaking::within_none, crate::proofs::Speaking::within_same))]
fn run_each<D: Database>(database: &mut D, statements: &[Statement]) -> Result<(), Trouble>
    requires { IsInTransaction (D.state database.old).spoken }
    ensures ok { OnOk result ((D.state database.new).spoken
        ≡ saying_bare statements.now (D.state database.old).spoken) }
    ensures err { OnErr result
        (standing_in (D.state database.new).spoken ≡ standing_in (D.state database.old).spoken) }
{
    for statement in statements {
        database.run(*statement, &[])?;
    }
    Ok(())
}

fn make_tables<D: Database>(database: &mut D) -> Result<(), Trouble>
    requires { IsInTransaction (D.state database.old).spoken }
    ensures { Says (bare_statements table_statements)
        (D.state database.old).spoken result (D.state database.new).spoken }
{
    run_each(database, &MAKE_TABLES)?;
    Ok(())
}

fn make_keys<D: Database>(alloc: Global, database: &mut D) -> Result<(), Trouble>
    requires { IsInTransaction (D.state database.old).spoken }
    ensures { Says (all_statements (key_writes new_tables))
        (D.state database.old).spoken result (D.state database.new).spoken }
{
    let writes = first_writes(alloc)?;
    make_all(alloc, database, writes.as_slice())?;
    Ok(())
}

/// The tables, and what a new client knows.
#[derive(Drop)]
struct FirstTables;

impl Job for FirstTables {
    ghost is_fit = { λ _. ⊤ };

    ghost says = { λ _. first_statements };

    #[tactic(auto, using(crate::proofs::Speaking::open_still))]
    fn say<D: Database>(&self, alloc: Global, database: &mut D) -> Result<(), Trouble> {
        make_tables(database)?;
        make_keys(alloc, database)?;
        Ok(())
    }
}

/// Makes the tables where nothing stands.
#[tactic(auto, using(crate::proofs::Speaking::unsaid))]
fn fill<D: Database>(alloc: Global, database: &mut D, found: Layout) -> Result<(), Trouble>
    ensures ok { OnOk result
        (FillsBlank found (D.state database.old).spoken (D.state database.new).spoken) }
    ensures err { OnErr result
        (MadeNoMore (D.state database.old).spoken (D.state database.new).spoken) }
{
    match found {
        Layout::Blank => together(alloc, database, &FirstTables)?,
        Layout::Tables => {}
        Layout::Foreign => return Err(Trouble::Fault),
    }
    Ok(())
}

/// Makes the tables, unless another run has made them meanwhile.
#[derive(Drop)]
pub(crate) struct NewTables;

impl Work for NewTables {
    type Answer = ();

    ghost is_fit = { λ _. ⊤ };

    ghost answers = { λ _ old _ new. HasTables old new };

    #[tactic(auto, using(crate::proofs::Standing::has_tables, crate::proofs::Speaking::unsaid))]
    fn done<D: Database>(&self, alloc: Global, database: &mut D) -> Result<(), Trouble> {
        let found = database.layout()?;
        fill(alloc, database, found)?;
        Ok(())
    }
}

/// Whether the tables stand in the database, and nothing else.
#[derive(Drop)]
pub(crate) struct AreThere;

impl Work for AreThere {
    type Answer = bool;

    ghost is_fit = { λ _. ⊤ };

    ghost answers = { λ _ old _ new. new ≡ old };

    #[tactic(auto, using(crate::proofs::Speaking::unsaid))]
    fn done<D: Database>(&self, _alloc: Global, database: &mut D) -> Result<bool, Trouble> {
        let found = database.layout()?;
        Ok(found == Layout::Tables)
    }
}

//! What is written to the database.

ghost use Rattle.std.specs.Prelude.{◌≡◌, [], ◌∷◌, ◌++◌, ⊤, All, OnErr, OnOk};
ghost use Rattle.sqlite_value.specs.declared.value.Value.TheVariants.{Int, Text as SqlText, Blob as SqlBlob};
ghost use Rattle.sync_info.specs.Info.{IsInfo};
ghost use Rattle.local_store.specs.Sound.{IsSoundRow, IsSoundNote};
ghost use Rattle.keeper_records.specs.Writes.{IsSoundWrite};
ghost use Rattle.keeper_sqlite.specs.Speaking.{IsInTransaction, Says, standing_in, with_made};
ghost use Rattle.keeper_sqlite.specs.Statements.{all_statements, blob_statement, said, saying_all, statements_of};

use crate::database::Database;
use crate::statement::Statement;
use crate::together::{Job, together};
use crate::values::{bytes, number, of_deletion, of_note, of_row, text};
use crate::work::Work;
use jop_base::{Bytes, Context, Id};
use keeper_columns::{DeletionRecord, NoteRecord, RowRecord, ids_text, number_text};
use keeper_file::Trouble;
use keeper_records::Write;
use local_store::{ConflictNote, Deletion, Row};
use std::alloc::Global;
use sync_info::{Info, write_info};

// ---- one statement

fn run_on_id<D: Database>(database: &mut D, statement: Statement, id: &Id) -> Result<(), Trouble>
    ensures { Says (said statement (SqlText id.now ∷ []))
        (D.state database.old).spoken result (D.state database.new).spoken }
{
    database.run(statement, &[text(id.as_str())])?;
    Ok(())
}

fn run_on_bytes<D: Database>(
    database: &mut D,
    statement: Statement,
    value: &[u8],
) -> Result<(), Trouble>
    ensures { Says (said statement (SqlBlob value.now ∷ []))
        (D.state database.old).spoken result (D.state database.new).spoken }
{
    database.run(statement, &[bytes(value)])?;
    Ok(())
}

fn run_on_number<D: Database>(
    database: &mut D,
    statement: Statement,
    value: i64,
) -> Result<(), Trouble>
    ensures { Says (said statement (Int value ∷ []))
        (D.state database.old).spoken result (D.state database.new).spoken }
{
    database.run(statement, &[number(value)])?;
    Ok(())
}

// ---- one write

/// Drops what the statement drops of an id, and with the last of that the bytes of its resource.
fn drop_of<D: Database>(database: &mut D, statement: Statement, id: &Id) -> Result<(), Trouble>
    requires { IsInTransaction (D.state database.old).spoken }
    ensures { Says
        (said statement (SqlText id.now ∷ []) ++ said Statement.DropBytes (SqlText id.now ∷ []))
        (D.state database.old).spoken result (D.state database.new).spoken }
{
    run_on_id(database, statement, id)?;
    run_on_id(database, Statement::DropBytes, id)?;
    Ok(())
}

#[tactic(auto, using(crate::proofs::Standing::row_columns_are))]
fn set_row<D: Database>(alloc: Global, database: &mut D, row: &Row) -> Result<(), Trouble>
    requires { IsSoundRow row.now }
    ensures { Says (statements_of (Write.SetRow row.now))
        (D.state database.old).spoken result (D.state database.new).spoken }
{
    let record = RowRecord::of(alloc, row)?;
    database.run(Statement::SetRow, &of_row(&record))?;
    Ok(())
}

#[tactic(auto, using(crate::proofs::Standing::deletion_columns_are))]
fn set_deletion<D: Database>(
    alloc: Global,
    database: &mut D,
    deletion: &Deletion,
) -> Result<(), Trouble>
    ensures { Says (statements_of (Write.SetDeletion deletion.now))
        (D.state database.old).spoken result (D.state database.new).spoken }
{
    let record = DeletionRecord::of(alloc, deletion)?;
    database.run(Statement::SetDeletion, &of_deletion(&record))?;
    Ok(())
}

#[tactic(auto, using(crate::proofs::Standing::note_columns_are))]
fn add_conflict<D: Database>(
    alloc: Global,
    database: &mut D,
    note: &ConflictNote,
) -> Result<(), Trouble>
    requires { IsSoundNote note.now }
    ensures { Says (statements_of (Write.AddConflict note.now))
        (D.state database.old).spoken result (D.state database.new).spoken }
{
    let record = NoteRecord::of(alloc, note)?;
    database.run(Statement::AddConflict, &of_note(&record))?;
    Ok(())
}

/// Drops the conflict notes of a number. Of a number past 2^63 - 1 there is none.
#[tactic(auto, using(crate::proofs::Speaking::nothing_said))]
fn drop_conflict<D: Database>(database: &mut D, number: u64) -> Result<(), Trouble>
    ensures { Says (statements_of (Write.DropConflict number))
        (D.state database.old).spoken result (D.state database.new).spoken }
{
    match i64::try_from(number) {
        Ok(number) => run_on_number(database, Statement::DropConflict, number)?,
        Err(_) => {}
    }
    Ok(())
}

fn set_next<D: Database>(alloc: Global, database: &mut D, number: u64) -> Result<(), Trouble>
    ensures { Says (statements_of (Write.SetNext number))
        (D.state database.old).spoken result (D.state database.new).spoken }
{
    let digits = number_text(alloc, number)?;
    run_on_bytes(database, Statement::SetNext, digits.as_slice())?;
    Ok(())
}

fn set_client<D: Database>(database: &mut D, client: &Id) -> Result<(), Trouble>
    ensures { Says (statements_of (Write.SetClient client.now))
        (D.state database.old).spoken result (D.state database.new).spoken }
{
    let digits = client.digits();
    run_on_bytes(database, Statement::SetClient, &digits)?;
    Ok(())
}

fn set_context<D: Database>(
    alloc: Global,
    database: &mut D,
    context: &Context,
) -> Result<(), Trouble>
    ensures { Says (statements_of (Write.SetContext context.now))
        (D.state database.old).spoken result (D.state database.new).spoken }
{
    let moment = number_text(alloc, context.moment)?;
    let seen = ids_text(alloc, context.seen.as_slice())?;
    let values = [bytes(moment.as_slice()), bytes(seen.as_slice())];
    database.run(Statement::SetContext, &values)?;
    Ok(())
}

fn set_info<D: Database>(alloc: Global, database: &mut D, info: &Info) -> Result<(), Trouble>
    requires { IsInfo info.now }
    ensures { Says (statements_of (Write.SetInfo info.now))
        (D.state database.old).spoken result (D.state database.new).spoken }
{
    let written = write_info(alloc, info)?;
    run_on_bytes(database, Statement::SetInfo, written.as_slice())?;
    Ok(())
}

/// Makes a write.
fn make<D: Database>(alloc: Global, database: &mut D, write: &Write) -> Result<(), Trouble>
    requires sound { IsSoundWrite write.now }
    requires begun { IsInTransaction (D.state database.old).spoken }
    ensures { Says (statements_of write.now)
        (D.state database.old).spoken result (D.state database.new).spoken }
{
    match write {
        Write::SetRow(row) => set_row(alloc, database, row),
        Write::DropRow(id) => drop_of(database, Statement::DropRow, id),
        Write::SetDeletion(deletion) => set_deletion(alloc, database, deletion),
        Write::DropDeletion(id) => drop_of(database, Statement::DropDeletion, id),
        Write::AddConflict(note) => add_conflict(alloc, database, note),
        Write::DropConflict(number) => drop_conflict(database, *number),
        Write::SetNext(number) => set_next(alloc, database, *number),
        Write::SetClient(client) => set_client(database, client),
        Write::SetContext(context) => set_context(alloc, database, context),
        Write::SetInfo(info) => set_info(alloc, database, info),
    }
}

// ---- all writes of a change

/// Makes the writes, in order, one write after the other.
#[tactic(auto, using(crate::proofs::Speaking::within_more, crate::proofs::Speaking::within_none, crate::proofs::Speaking::within_same))]
fn make_each<D: Database>(alloc: Global, database: &mut D, writes: &[Write]) -> Result<(), Trouble>
    requires sound { All IsSoundWrite writes.now }
    requires begun { IsInTransaction (D.state database.old).spoken }
    ensures ok { OnOk result ((D.state database.new).spoken
        ≡ saying_all writes.now (D.state database.old).spoken) }
    ensures err { OnErr result
        (standing_in (D.state database.new).spoken ≡ standing_in (D.state database.old).spoken) }
{
    for write in writes {
        make(alloc, database, write)?;
    }
    Ok(())
}

/// Makes the writes, in order.
#[tactic(auto, using(crate::proofs::Speaking::all_are_said))]
pub(crate) fn make_all<D: Database>(
    alloc: Global,
    database: &mut D,
    writes: &[Write],
) -> Result<(), Trouble>
    requires sound { All IsSoundWrite writes.now }
    requires begun { IsInTransaction (D.state database.old).spoken }
    ensures { Says (all_statements writes.now)
        (D.state database.old).spoken result (D.state database.new).spoken }
{
    make_each(alloc, database, writes)?;
    Ok(())
}

/// Makes all the writes, or none.
#[derive(Drop)]
pub(crate) struct Writes<'a> {
    pub writes: &'a [Write],
}

impl Job for Writes<'_> {
    ghost is_fit = { λ job. All IsSoundWrite job.writes.now };

    ghost says = { λ job. all_statements job.writes.now };

    fn say<D: Database>(&self, alloc: Global, database: &mut D) -> Result<(), Trouble> {
        make_all(alloc, database, self.writes)
    }
}

impl Work for Writes<'_> {
    type Answer = ();

    ghost is_fit = { λ work. All IsSoundWrite work.writes.now };

    ghost answers = { λ work old _ new.
        new.spoken ≡ with_made (all_statements work.writes.now) old.spoken };

    fn done<D: Database>(&self, alloc: Global, database: &mut D) -> Result<(), Trouble> {
        together(alloc, database, self)?;
        Ok(())
    }
}

// ---- bytes

/// Saves the bytes of a resource.
#[derive(Drop)]
pub(crate) struct Blob<'a> {
    pub id: &'a Id,
    pub bytes: &'a Bytes,
}

fn save<D: Database>(database: &mut D, id: &Id, saved: &Bytes) -> Result<(), Trouble>
    ensures { Says (blob_statement id.now saved.now)
        (D.state database.old).spoken result (D.state database.new).spoken }
{
    let values = [text(id.as_str()), bytes(saved.as_slice())];
    database.run(Statement::SetBlob, &values)?;
    Ok(())
}

impl Job for Blob<'_> {
    ghost is_fit = { λ _. ⊤ };

    ghost says = { λ job. blob_statement job.id.now job.bytes.now };

    fn say<D: Database>(&self, _alloc: Global, database: &mut D) -> Result<(), Trouble> {
        save(database, self.id, self.bytes)
    }
}

impl Work for Blob<'_> {
    type Answer = ();

    ghost is_fit = { λ _. ⊤ };

    ghost answers = { λ work old _ new.
        new.spoken ≡ with_made (blob_statement work.id.now work.bytes.now) old.spoken };

    fn done<D: Database>(&self, alloc: Global, database: &mut D) -> Result<(), Trouble> {
        together(alloc, database, self)?;
        Ok(())
    }
}

//! Writes that are made to tables in memory.

ghost use Rattle.std.specs.Prelude.{◌≡◌, OnOk, true, false};
ghost use Rattle.keeper_records.specs.Writes.{after_write, after_writes, has_room, is_note_number, has_place, all_fit};
ghost use Rattle.std.specs.List.{list_all};

use crate::write::Write;
use jop_base::{Context, Copied, Id, let_go};
use keeper::KeeperErr;
use local_store::{Change, ConflictNote, Row, Tables};
use std::alloc::{AllocError, Global};
use sync_info::Info;

/// The numbers that a database holds are below this one, 2^63.
const LIMIT: u64 = 9_223_372_036_854_775_808;

/// Whether the number of a new conflict note fits a database.
fn has_room(write: &Write) -> bool
    ensures { result ≡ has_room write.now }
{
    match write {
        Write::AddConflict(note) => note.number < LIMIT,
        _ => true,
    }
}

/// Whether each new conflict note has a number that fits a database: at most 2^63 - 1.
pub fn have_room(writes: &[Write]) -> bool
    ensures { result ≡ list_all has_room writes.now }
{
    writes.iter().all(has_room)
}

fn is_note_number(number: u64, notes: &[ConflictNote]) -> bool
    ensures { result ≡ is_note_number number notes.now }
{
    notes.iter().any(|note| note.number == number)
}

/// Whether the tables have a place for what is written.
fn has_place(tables: &Tables, write: &Write) -> bool
    ensures { result ≡ has_place tables.now write.now }
{
    match write {
        Write::AddConflict(note) => {
            has_room(write) && !is_note_number(note.number, tables.conflicts.as_slice())
        }
        _ => true,
    }
}

fn set_row(tables: &mut Tables, alloc: Global, row: &Row) -> Result<(), AllocError>
    ensures { OnOk result (tables.new ≡ after_write tables.old (Write.SetRow row.now)) }
{
    let row = row.copy(alloc)?;
    tables.rows.put(row)
}

fn drop_row(tables: &mut Tables, id: &Id)
    ensures { tables.new ≡ after_write tables.old (Write.DropRow id.now) }
{
    let_go(tables.rows.cut(id));
}

fn add_conflict(tables: &mut Tables, alloc: Global, note: &ConflictNote) -> Result<(), AllocError>
    ensures { OnOk result (tables.new ≡ after_write tables.old (Write.AddConflict note.now)) }
{
    let note = note.copy(alloc)?;
    tables.conflicts.push(note)
}

fn drop_conflict(tables: &mut Tables, alloc: Global, number: u64) -> Result<(), AllocError>
    ensures { OnOk result (tables.new ≡ after_write tables.old (Write.DropConflict number)) }
{
    let change = Change::Cleared(number);
    let cleared = tables.apply(alloc, &change);
    let_go(change);
    cleared
}

fn set_context(tables: &mut Tables, alloc: Global, context: &Context) -> Result<(), AllocError>
    ensures { OnOk result (tables.new ≡ after_write tables.old (Write.SetContext context.now)) }
{
    tables.context = context.copy(alloc)?;
    Ok(())
}

fn set_info(tables: &mut Tables, alloc: Global, info: &Info) -> Result<(), AllocError>
    ensures { OnOk result (tables.new ≡ after_write tables.old (Write.SetInfo info.now)) }
{
    tables.info = info.copy(alloc)?;
    Ok(())
}

/// Makes a write.
fn make(alloc: Global, tables: &mut Tables, write: &Write) -> Result<(), AllocError>
    ensures { OnOk result (tables.new ≡ after_write tables.old write.now) }
{
    match write {
        Write::SetRow(row) => set_row(tables, alloc, row),
        Write::DropRow(id) => {
            drop_row(tables, id);
            Ok(())
        }
        Write::SetDeletion(deletion) => tables.deletions.put(*deletion),
        Write::DropDeletion(id) => {
            tables.deletions.cut(id);
            Ok(())
        }
        Write::AddConflict(note) => add_conflict(tables, alloc, note),
        Write::DropConflict(number) => drop_conflict(tables, alloc, *number),
        Write::SetNext(number) => {
            tables.next_conflict = *number;
            Ok(())
        }
        Write::SetClient(client) => {
            tables.client = Some(*client);
            Ok(())
        }
        Write::SetContext(context) => set_context(tables, alloc, context),
        Write::SetInfo(info) => set_info(tables, alloc, info),
    }
}

/// Makes all the writes, in order, or refuses at the first that doesn't fit.
pub(crate) fn make_all(
    alloc: Global,
    tables: &mut Tables,
    writes: &[Write],
) -> Result<(), KeeperErr>
    ensures ok { OnOk result (tables.new ≡ after_writes tables.old writes.now) }
    ensures fit { OnOk result (all_fit tables.old writes.now ≡ true) }
    ensures fault { result ≡ Err KeeperErr.Fault → all_fit tables.old writes.now ≡ false }
{
    for write in writes {
        if !has_place(tables, write) {
            return Err(KeeperErr::Fault);
        }
        make(alloc, tables, write)?;
    }
    Ok(())
}

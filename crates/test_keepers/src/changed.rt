ghost use Rattle.std.specs.Prelude.{All, IfOk};
ghost use Rattle.keeper_records.specs.Writes.{IsSoundWrite};

use crate::file::{clear, opened, path, remove};
use crate::made::{Parts, add, note, row};
use crate::trouble::Trouble;
use jop_base::{Id, Seq, Text};
use keeper::KeeperErr;
use keeper_records::{RecordStore, Write};
use keeper_sqlite::SqliteRecords;
use local_store::Deletion;
use sqlite::Connection;
use std::alloc::Global;
use std::test::Fail;

/// What another program does to the file, and whether the row can be read all the same.
const CHANGES: [(&str, bool); 17] = [
    ("UPDATE rows SET content = x'6869'", false),
    (
        "UPDATE rows SET content = x'410a0a69643a20320a747970655f3a2031'",
        false,
    ),
    (
        "UPDATE rows SET content = x'410a0a69643a20\
     31313131313131313131313131313131616161616161616161616161616161620a747970655f3a2031'",
        false,
    ),
    ("UPDATE rows SET sealed = 1", false),
    ("UPDATE rows SET sealed = 2", false),
    ("UPDATE rows SET pending = -1", false),
    (
        "UPDATE rows SET id = '1111111111111111AAAAAAAAAAAAAAAA'",
        true,
    ),
    ("UPDATE deletions SET id = '1'", true),
    ("UPDATE deletions SET resource = 5", true),
    ("UPDATE conflicts SET number = -1", true),
    (
        "UPDATE conflicts SET note = '1111111111111111AAAAAAAAAAAAAAAA'",
        true,
    ),
    ("UPDATE conflicts SET content = x''", true),
    ("DELETE FROM meta WHERE key = 'moment'", true),
    (
        "UPDATE meta SET value = x'303031' WHERE key = 'next_conflict'",
        true,
    ),
    ("UPDATE meta SET value = x'61' WHERE key = 'seen'", true),
    ("UPDATE meta SET value = x'7b7d' WHERE key = 'info'", true),
    (
        "DROP TABLE rows; \
     CREATE TABLE rows (id TEXT PRIMARY KEY, sealed TEXT, content TEXT, base TEXT, \
     pending TEXT) STRICT; \
     INSERT INTO rows VALUES ('1111111111111111aaaaaaaaaaaaaaaa', '0', 'type_: 1', '', '0')",
        false,
    ),
];

/// The id of the row, the deletion and the conflict note.
pub(crate) fn id() -> Result<Id, Trouble> {
    Id::read(b"1111111111111111aaaaaaaaaaaaaaaa").ok_or(Trouble::NotRead)
}

fn add_row(alloc: Global, writes: &mut Seq<Write>, id: Id) -> Result<(), Trouble>
    requires { All IsSoundWrite writes.old }
    ensures { All IsSoundWrite writes.new }
{
    let parts = Parts {
        id,
        kind: 1,
        body: "a body",
        sealed: false,
    };
    let row = row(alloc, &parts, true)?;
    Ok(add(writes, Write::SetRow(row))?)
}

fn add_note(alloc: Global, writes: &mut Seq<Write>, id: Id) -> Result<(), Trouble>
    requires { All IsSoundWrite writes.old }
    ensures { All IsSoundWrite writes.new }
{
    let note = note(alloc, 1, id, "another")?;
    Ok(add(writes, Write::AddConflict(note))?)
}

/// A row, a deletion and a conflict note.
pub(crate) fn records(alloc: Global, id: Id) -> Result<Seq<Write>, Trouble>
    ensures { IfOk result (λ writes. All IsSoundWrite writes) }
{
    let mut writes = Seq::new(alloc);
    add_row(alloc, &mut writes, id)?;
    let deletion = Deletion { id, resource: true };
    add(&mut writes, Write::SetDeletion(deletion))?;
    add_note(alloc, &mut writes, id)?;
    Ok(writes)
}

/// Makes a file with these records.
fn make(rt: &HostRuntime, path: &Text, id: Id) -> Result<(), Trouble> {
    let writes = records(rt.alloc(), id)?;
    let mut store = opened(rt, path)?;
    Ok(store.write(rt.alloc(), &writes)?)
}

/// Another program changes the file: whether it could.
fn is_changed(rt: &HostRuntime, path: &Text, sql: &str) -> bool {
    match Connection::open(rt, path.as_str()) {
        Ok(mut database) => {
            let is_done = database.execute_batch(sql).is_ok();
            database.close().is_ok() && is_done
        }
        Err(_) => false,
    }
}

/// Whether a call fails and isn't out of memory.
pub(crate) fn is_fault<T: Drop>(answer: Result<T, KeeperErr>) -> bool {
    matches!(answer, Err(KeeperErr::Fault))
}

/// Whether the tables can't be read and the row can, or can't, and each fault is counted.
fn is_told(alloc: Global, store: &mut SqliteRecords, id: Id, is_row_read: bool) -> bool {
    let count = if is_row_read { 1 } else { 2 };
    is_fault(store.all(alloc))
        && is_fault(store.row(alloc, &id)) == !is_row_read
        && store.faults() == count
}

/// Whether a file is told to be faulty once another program changed it.
fn is_told_anew(
    rt: &HostRuntime,
    path: &Text,
    sql: &str,
    is_row_read: bool,
) -> Result<bool, Trouble> {
    clear(rt)?;
    let id = id()?;
    make(rt, path, id)?;
    if !is_changed(rt, path, sql) {
        return Err(Trouble::Database);
    }
    let mut store = opened(rt, path)?;
    Ok(is_told(rt.alloc(), &mut store, id, is_row_read))
}

/// How many of the changes are told, until one isn't.
fn count_told(rt: &HostRuntime) -> Result<usize, Trouble> {
    let path = path(rt)?;
    for (count, (sql, is_row_read)) in CHANGES.into_iter().enumerate() {
        if !is_told_anew(rt, &path, sql, is_row_read)? {
            return Ok(count);
        }
    }
    Ok(CHANGES.len())
}

#[test]
fn records_that_another_program_changed_are_faults(rt: HostRuntime) -> Result<(), Fail> {
    assert_eq!(rt; count_told(&rt)?, 17);
    Ok(remove(&rt)?)
}

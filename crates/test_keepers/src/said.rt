ghost use Rattle.std.specs.Prelude.{All, IfOk};
ghost use Rattle.keeper_records.specs.Writes.{IsSoundWrite};

use crate::changed::records;
use crate::made::{add, bytes, info};
use crate::recorder::{NewRecorder, Recorder};
use crate::thing::Thing;
use crate::trouble::Trouble;
use jop_base::{Context, Id, Seq};
use keeper::KeeperErr;
use keeper_records::{RecordStore, Write};
use keeper_sqlite::{Said, SqlRecords};
use sqlite::types::ValueRef;
use std::alloc::{AllocError, Global};
use std::test::Fail;

/// What is said of a row, a deletion, a conflict note, and of what goes and is set: each statement,
/// and its values.
const SAID: [&str; 12] = [
    "INSERT INTO rows (id, sealed, content, base, pending) VALUES (?1, ?2, ?3, ?4, ?5) \
ON CONFLICT (id) DO UPDATE SET sealed = excluded.sealed, content = excluded.content, \
base = excluded.base, pending = excluded.pending \
| '1111111111111111aaaaaaaaaaaaaaaa' | 0 \
| x'A title\n\na body\n\nid: 1111111111111111aaaaaaaaaaaaaaaa\nencryption_applied: 0\ntype_: 1' \
| x'a body' | 0",
    "INSERT OR REPLACE INTO deletions (id, resource) VALUES (?1, ?2) \
| '1111111111111111aaaaaaaaaaaaaaaa' | 1",
    "INSERT INTO conflicts (number, note, content) VALUES (?1, ?2, ?3) \
| 1 | '1111111111111111aaaaaaaaaaaaaaaa' \
| x'A title\n\nanother\n\nid: 1111111111111111aaaaaaaaaaaaaaaa\nencryption_applied: 0\ntype_: 1'",
    "DELETE FROM rows WHERE id = ?1 | '33333333333333333333333333333333'",
    "DELETE FROM blobs WHERE id = ?1 AND NOT EXISTS (SELECT 1 FROM rows WHERE id = ?1) \
AND NOT EXISTS (SELECT 1 FROM deletions WHERE id = ?1) | '33333333333333333333333333333333'",
    "DELETE FROM deletions WHERE id = ?1 | '22222222222222222222222222222222'",
    "DELETE FROM blobs WHERE id = ?1 AND NOT EXISTS (SELECT 1 FROM rows WHERE id = ?1) \
AND NOT EXISTS (SELECT 1 FROM deletions WHERE id = ?1) | '22222222222222222222222222222222'",
    "DELETE FROM conflicts WHERE number = ?1 | 7",
    "INSERT OR REPLACE INTO meta (key, value) VALUES ('next_conflict', ?1) | x'8'",
    "INSERT OR REPLACE INTO meta (key, value) VALUES ('client', ?1) \
| x'11111111111111111111111111111111'",
    "INSERT INTO meta (key, value) VALUES ('moment', ?1), ('seen', ?2) \
ON CONFLICT (key) DO UPDATE SET value = excluded.value WHERE value <> excluded.value \
| x'1600000000000' | x'22222222222222222222222222222222'",
    "INSERT OR REPLACE INTO meta (key, value) VALUES ('info', ?1) \
| x'{\"activeMasterKeyId\":{\"updatedTime\":0,\"value\":\"\"},\
\"e2ee\":{\"updatedTime\":0,\"value\":false},\"masterKeys\":[],\"version\":3}'",
];

/// What is said of the bytes of a resource.
const SAVED: &str = "INSERT OR REPLACE INTO blobs (id, bytes) VALUES (?1, ?2) \
| '33333333333333333333333333333333' | x'some bytes'";

fn context(alloc: Global) -> Result<Context, AllocError> {
    let mut seen = Seq::new(alloc);
    seen.push(Thing::Book.id())?;
    Ok(Context {
        moment: 1_600_000_000_000,
        seen,
    })
}

/// What goes. Of a number past 2^63 - 1 there is no conflict note.
fn add_drops(writes: &mut Seq<Write>) -> Result<(), AllocError>
    requires { All IsSoundWrite writes.old }
    ensures { All IsSoundWrite writes.new }
{
    add(writes, Write::DropRow(Thing::File.id()))?;
    add(writes, Write::DropDeletion(Thing::Book.id()))?;
    add(writes, Write::DropConflict(7))?;
    add(writes, Write::DropConflict(u64::MAX))
}

/// What is set.
fn add_keys(alloc: Global, writes: &mut Seq<Write>) -> Result<(), Trouble>
    requires { All IsSoundWrite writes.old }
    ensures { All IsSoundWrite writes.new }
{
    add(writes, Write::SetNext(8))?;
    add(writes, Write::SetClient(Thing::Note.id()))?;
    add(writes, Write::SetContext(context(alloc)?))?;
    let info = info(alloc, 3)?;
    Ok(add(writes, Write::SetInfo(info))?)
}

/// Each kind of write.
fn writes(alloc: Global) -> Result<Seq<Write>, Trouble>
    ensures { IfOk result (λ writes. All IsSoundWrite writes) }
{
    let mut writes = records(alloc, crate::changed::id()?)?;
    add_drops(&mut writes)?;
    add_keys(alloc, &mut writes)?;
    Ok(writes)
}

// ---- what a recorder was told

/// A text among the values of a statement.
fn text_of(text: &[u8]) -> &str {
    match std::str::from_utf8(text) {
        Ok(text) => text,
        Err(_) => "no text",
    }
}

fn value_text(alloc: Global, value: ValueRef<'_>) -> Result<String, AllocError> {
    match value {
        ValueRef::Null => format!(in alloc; " | NULL"),
        ValueRef::Int(number) => format!(in alloc; " | {number}"),
        ValueRef::Real(_) => format!(in alloc; " | a float"),
        ValueRef::Text(text) => format!(in alloc; " | '{}'", text_of(text)),
        ValueRef::Blob(bytes) => format!(in alloc; " | x'{}'", text_of(bytes)),
    }
}

/// A statement with its values.
fn line(alloc: Global, said: &Said) -> Result<String, AllocError> {
    let mut line = String::from_str(alloc, said.statement.text())?;
    for place in 0..said.values.len() {
        line.push_str(value_text(alloc, said.values.get(place))?.as_str())?;
    }
    Ok(line)
}

/// How many statements are these, until one isn't.
fn count_same(alloc: Global, told: &[Said], wanted: &[&str]) -> Result<usize, AllocError> {
    let mut count = 0usize;
    for (said, wanted) in told.iter().zip(wanted.iter()) {
        if line(alloc, said)?.as_str() != *wanted {
            return Ok(count);
        }
        count = count.saturating_add(1);
    }
    Ok(count)
}

/// How many statements were made together by the call of this number, counted from 0, that are
/// these.
fn count_made(
    alloc: Global,
    recorder: &Recorder,
    call: usize,
    wanted: &[&str],
) -> Result<usize, AllocError> {
    match recorder.made.as_slice().get(call) {
        Some(together) if together.len() == wanted.len() => {
            count_same(alloc, together.as_slice(), wanted)
        }
        _ => Ok(0),
    }
}

// ---- the tests

/// Writes, and saves bytes, in a recorder that refuses the call behind so many.
fn write(alloc: Global, calls: u64) -> Result<SqlRecords<NewRecorder>, Trouble> {
    let mut store = SqlRecords::over(NewRecorder { calls });
    let writes = writes(alloc)?;
    let _ = store.write(alloc, &writes);
    Ok(store)
}

fn save(alloc: Global, store: &mut SqlRecords<NewRecorder>) -> Result<(), KeeperErr> {
    let saved = bytes(alloc, b"some bytes")?;
    store.save_blob(alloc, &Thing::File.id(), &saved)
}

/// How many statements of the writes, and of the bytes, are as they should be.
fn count_said(alloc: Global) -> Result<(usize, usize), Trouble> {
    let mut store = write(alloc, 100)?;
    save(alloc, &mut store)?;
    match store.into_database() {
        Some(recorder) => Ok((
            count_made(alloc, &recorder, 0, &SAID)?,
            count_made(alloc, &recorder, 1, &[SAVED])?,
        )),
        None => Err(Trouble::Database),
    }
}

#[test]
fn each_write_becomes_its_statements(rt: HostRuntime) -> Result<(), Fail> {
    assert!(rt; count_said(rt.alloc()) == Ok((12, 1)));
    Ok(())
}

/// Whether nothing stands, and no transaction is open, where the call behind so many was refused.
fn is_undone(alloc: Global, calls: u64) -> Result<bool, Trouble> {
    let store = write(alloc, calls)?;
    match store.into_database() {
        Some(recorder) => Ok(recorder.made.is_empty() && recorder.waiting.is_none()),
        None => Err(Trouble::Database),
    }
}

/// How many calls can be refused so that nothing stands.
fn count_undone(alloc: Global) -> Result<u64, Trouble> {
    for calls in 0..100 {
        if !is_undone(alloc, calls)? {
            return Ok(calls);
        }
    }
    Ok(100)
}

/// The beginning of a transaction, twelve statements, and its end.
#[test]
fn a_write_that_is_refused_anywhere_is_undone(rt: HostRuntime) -> Result<(), Fail> {
    assert!(rt; count_undone(rt.alloc()) == Ok(14));
    Ok(())
}

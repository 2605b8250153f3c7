use crate::changed::{id, is_fault, records};
use crate::file::{clear, opened, path, remove};
use crate::trouble::Trouble;
use jop_base::{Id, Text};
use keeper_records::RecordStore;
use keeper_sqlite::SqliteRecords;
use std::alloc::{AllocError, Global};
use std::fs::File;
use std::io::Write as _;
use std::test::Fail;
use std::{fs, io};

fn text(alloc: Global) -> Result<Vec<u8>, AllocError> {
    b"Secret notes, and no database. ".repeat(alloc, 200)
}

/// Writes bytes to a file that is new.
fn make(rt: &HostRuntime, path: &Text, text: &[u8]) -> io::Result<()> {
    let mut file = File::create(rt, path.as_str())?;
    file.write_all(text)
}

/// Whether nothing can be read.
fn is_unreadable(alloc: Global, store: &mut SqliteRecords, id: &Id) -> bool {
    is_fault(store.all(alloc))
        && is_fault(store.row(alloc, id))
        && is_fault(store.next_conflict(alloc))
        && is_fault(store.load_blob(alloc, id))
}

fn is_unwritable(alloc: Global, store: &mut SqliteRecords, id: Id) -> Result<bool, Trouble> {
    let writes = records(alloc, id)?;
    Ok(is_fault(store.write(alloc, &writes)))
}

/// Whether each call is a fault, and is counted.
fn is_faulty(rt: &HostRuntime, path: &Text) -> Result<bool, Trouble> {
    let id = id()?;
    let mut store = opened(rt, path)?;
    Ok(
        is_unreadable(rt.alloc(), &mut store, &id)
            && is_unwritable(rt.alloc(), &mut store, id)?
            && store.faults() == 5,
    )
}

fn holds(rt: &HostRuntime, path: &Text, text: &[u8]) -> io::Result<bool> {
    let kept = fs::read(rt, path.as_str())?;
    Ok(kept.as_slice() == text)
}

/// Whether a file that holds a text alone is a fault, and stays.
fn stays(rt: &HostRuntime, path: &Text) -> Result<bool, Trouble> {
    let text = text(rt.alloc())?;
    make(rt, path, text.as_slice())?;
    Ok(is_faulty(rt, path)? && holds(rt, path, text.as_slice())?)
}

#[test]
fn a_file_that_is_no_database_is_a_fault_and_stays(rt: HostRuntime) -> Result<(), Fail> {
    clear(&rt)?;
    let path = path(&rt)?;
    assert!(rt; stays(&rt, &path) == Ok(true));
    Ok(remove(&rt)?)
}

//! A copy of a file and its log in memory. What the database makes of it touches no file.

ghost use Rattle.std.specs.Prelude.{IfOk, IsTrue};
ghost use Rattle.sqlite_disk.specs.Memory.{memory_is_usable};

use crate::layout::{Layout, layout_of};
use crate::mark::{MARK_END, Mark, mark_of};
use crate::trouble::Trouble;
use sqlite::{Connection, FileStore, Files, Options};
use sqlite_disk::{Disk, Memory};
use std::alloc::Global;

/// An open copy.
type Copied = Connection<FileStore<Memory>>;

/// What stands in a file, and its mark, once what its log holds is in it.
#[derive(Clone, Copy, Debug, PartialEq, Eq)]
pub(crate) struct Look {
    pub layout: Layout,
    pub mark: Mark,
}

fn memory_of(alloc: Global, bytes: Vec<u8>) -> Result<Memory, Trouble>
    ensures { IfOk result (λ memory. IsTrue (memory_is_usable memory)) }
{
    let mut memory = Memory::new(alloc);
    memory.write_at(0, bytes.as_slice())?;
    Ok(memory)
}

fn open(alloc: Global, log: Memory, db: Memory) -> Result<Copied, Trouble>
    requires log { IsTrue (memory_is_usable log) }
    requires db { IsTrue (memory_is_usable db) }
{
    match Connection::open_files(alloc, Files { log, db }, Options::new(0)) {
        Ok(copy) => Ok(copy),
        Err((error, _left)) => Err(error.into()),
    }
}

/// The file, into which the log was copied.
fn close(copy: Copied) -> Result<Memory, Trouble> {
    match copy.close_files() {
        Ok(Files { log: _log, db }) => Ok(db),
        Err((error, _store)) => Err(error.into()),
    }
}

/// The mark of a whole file.
fn mark_in(db: &[u8]) -> Mark {
    if db.len() < MARK_END {
        return Mark::Unmarked;
    }
    mark_of(db)
}

/// Looks at a file and its log.
pub(crate) fn look_at(alloc: Global, db: Vec<u8>, log: Vec<u8>) -> Result<Look, Trouble> {
    let mut copy = open(alloc, memory_of(alloc, log)?, memory_of(alloc, db)?)?;
    let layout = layout_of(&mut copy)?;
    let db = close(copy)?;
    let mark = mark_in(db.bytes());
    Ok(Look { layout, mark })
}

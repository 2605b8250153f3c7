//! Opening the file.

use crate::new_tables::{AreThere, NewTables};
use crate::open_file::OpenFile;
use crate::opened::Opened;
use crate::waiting::{Tried, patiently};
use keeper_file::{Trouble, holds_tables, make_file};
use std::alloc::Global;
use std::thread;
use std::time::Duration;

/// Makes the tables in a file that is new, and marks it.
fn fill_file(rt: &HostRuntime, alloc: Global, path: &str) -> Result<(), Trouble> {
    let mut file = OpenFile::open(rt, path)?;
    file.do_work(alloc, &NewTables)?;
    file.close()?;
    holds_tables(rt, alloc, path)?;
    Ok(())
}

/// Opens a file with the tables.
fn open_file(rt: &HostRuntime, alloc: Global, path: &str) -> Result<OpenFile, Trouble> {
    let mut file = OpenFile::open(rt, path)?;
    if !file.do_work(alloc, &AreThere)? {
        return Err(Trouble::Fault);
    }
    Ok(file)
}

/// Whether the database opens no file of this path, whatever stands there.
fn is_refused(path: &str) -> bool {
    path == ":memory:" || path.starts_with("file:")
}

/// Opens the file, or makes it.
fn open_once(rt: &HostRuntime, alloc: Global, path: &str) -> Result<OpenFile, Trouble> {
    if is_refused(path) {
        return Err(Trouble::Fault);
    }
    make_file(rt, path)?;
    if !holds_tables(rt, alloc, path)? {
        fill_file(rt, alloc, path)?;
    }
    open_file(rt, alloc, path)
}

/// The opening of a file, which another run may have open.
#[derive(Drop)]
struct Opening<'a> {
    rt: &'a HostRuntime,
    alloc: Global,
    path: &'a str,
    /// How long it has waited, in milliseconds.
    paused: u64,
}

impl Tried for Opening<'_> {
    type Answer = OpenFile;

    ghost paused = { λ opening. opening.paused };

    fn attempt(&mut self) -> Result<OpenFile, Trouble> {
        open_once(self.rt, self.alloc, self.path)
    }

    fn pause(&mut self, millis: u64) {
        thread::sleep(self.rt, Duration::from_millis(millis));
        self.paused += millis;
    }
}

/// Opens the file, or makes it, and waits up to five seconds for another run or program that has it
/// open.
pub(crate) fn open(rt: &HostRuntime, alloc: Global, path: &str) -> Result<OpenFile, Trouble> {
    let mut opening = Opening {
        rt,
        alloc,
        path,
        paused: 0,
    };
    patiently(&mut opening)
}

//! The file itself, before the database opens it.

ghost use Rattle.std.specs.Prelude.{◌≡◌, IfOk, length};

use crate::first_page::PAGE_LEN;
use crate::mark::{MARK_END, MARK_START, put_mark};
use crate::trouble::Trouble;
use os::RangeLock;
use std::alloc::Global;
use std::fs::{File, OpenOptions};
use std::io::{ErrorKind, Read};
use std::os::fd::AsRawFd;
use std::os::unix::fs::{FileExt, MetadataExt, OpenOptionsExt};
use std::path::PathBuf;
use std::{fs, io};

/// The rights of a file that is made: its owner may read and write it, and nobody else. The database gives its log
/// the same.
const OWN_RIGHTS: u32 = 0o600;

/// SQLite's pending, reserved and shared locks: their first byte, and how many there are.
const LOCKS_START: u64 = 1 << 30;

const LOCKS_LEN: u64 = 512;

/// Makes the file, empty, if nothing bears its name. What is there keeps its rights.
pub fn make_file(rt: &HostRuntime, path: &str) -> Result<(), Trouble> {
    let made = OpenOptions::new()
        .write(true)
        .create_new(true)
        .mode(OWN_RIGHTS)
        .open(rt, path);
    match made {
        Ok(_) => Ok(()),
        Err(error) if error.kind() == ErrorKind::AlreadyExists => Ok(()),
        Err(error) => Err(error.into()),
    }
}

/// A file that no other run can open as long as this is there. What is read of it is what stands in it.
#[derive(Drop)]
pub(crate) struct HeldFile {
    file: File,
    /// Its path, with no link in it.
    path: PathBuf,
}

impl HeldFile {
    /// Takes hold of the file of this path. `Busy` if another run or program has it open. A fault if it is no file, or
    /// one with a second name.
    pub fn open(rt: &HostRuntime, path: &str) -> Result<HeldFile, Trouble> {
        let path = fs::canonicalize(rt, path)?;
        let seen = fs::symlink_metadata(rt, path.as_str())?;
        if !seen.is_file() || seen.nlink() != 1 {
            return Err(Trouble::Fault);
        }
        let file = OpenOptions::new()
            .read(true)
            .write(true)
            .open(rt, path.as_str())?;
        lock(&file)?;
        Ok(HeldFile { file, path })
    }

    /// How many bytes it has.
    pub fn len(&self) -> Result<u64, Trouble> {
        Ok(self.file.metadata()?.len())
    }

    /// Its bytes.
    pub fn bytes(&mut self, alloc: Global) -> Result<Vec<u8>, Trouble> {
        let mut bytes = Vec::new(alloc);
        self.file.read_to_end(&mut bytes)?;
        Ok(bytes)
    }

    /// The bytes of its log. None if it has no log.
    pub fn log(&self, rt: &HostRuntime) -> Result<Vec<u8>, Trouble> {
        let log = format!(in rt.alloc(); "{}-wal", self.path.as_str())?;
        match fs::symlink_metadata(rt, log.as_str()) {
            Ok(seen) if seen.is_file() => Ok(fs::read(rt, log.as_str())?),
            Ok(_) => Err(Trouble::Fault),
            Err(error) if error.kind() == ErrorKind::NotFound => Ok(Vec::new(rt.alloc())),
            Err(error) => Err(error.into()),
        }
    }

    /// Its first page. It has to be as long as that.
    pub fn first_page(&self, alloc: Global) -> Result<Vec<u8>, Trouble>
        ensures { IfOk result (λ page. length page.items ≡ PAGE_LEN) }
    {
        let mut page = vec![in alloc; 0; PAGE_LEN]?;
        self.file.read_exact_at(&mut page, 0)?;
        Ok(page)
    }

    /// Marks it as this program's: writes the two numbers into its header, and flushes it.
    pub fn mark(&self) -> Result<(), Trouble> {
        let mut head = [0; MARK_END];
        self.file.read_exact_at(&mut head, 0)?;
        put_mark(&mut head);
        self.file
            .write_all_at(&head[MARK_START..], MARK_START as u64)?;
        self.file.sync_all()?;
        Ok(())
    }
}

/// Locks a file as SQLite does to change it.
fn lock(file: &File) -> Result<(), Trouble> {
    let locked = os::try_lock_range(
        file.as_raw_fd(),
        RangeLock::Exclusive,
        LOCKS_START,
        LOCKS_LEN,
    );
    if locked == 0 {
        return Ok(());
    }
    let error = io::Error::from_raw_os_error(os::errno());
    if error.kind() == ErrorKind::WouldBlock {
        return Err(Trouble::Busy);
    }
    Err(error.into())
}

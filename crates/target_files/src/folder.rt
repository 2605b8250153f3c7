ghost use Rattle.std.specs.Prelude.{◌≡◌, ◌≤◌, IfOk, IfSome, codes};
ghost use Rattle.std.specs.Path.{path_buf_bytes, path_join, path_set_extension};
ghost use Rattle.jop_base.specs.Paths.{path_text};
ghost use Rattle.jop_base.specs.declared.time.TheConstants.{MAX_TIME};
ghost use Rattle.jop_target.specs.Replies.{IsListing};
ghost use Rattle.jop_target.specs.Store.{limit_of};
ghost use Rattle.target_files.specs.Listed.{IsUpToMoment, latest_in};
ghost use Rattle.target_files.specs.Reading.{IsWithin};

use crate::file_clock::{FileClock, clock_by};
use crate::files::{Reading, read};
use crate::folders::{flush_folder, make_folder};
use crate::listing::{entries_of, is_at_rest, names_in};
use crate::lock_file::write_in_place;
use crate::moment::stamp_of;
use crate::named::{is_file, is_link};
use crate::temporary::{Place, replace};
use crate::trouble::{Trouble, found};
use crate::turn::{TakesTurns, Turn, turn_at};
use jop_base::{Dir, Id, MAX_TIME, Path, Seq, Text};
use jop_target::{Listing, limit_of};
use std::alloc::{AllocError, Global};
use std::fs::{self, Metadata};
use std::path::PathBuf;
use std::rt::{Clock, Files};
use std::thread::sleep;
use std::time::Duration;

/// How often a folder is read at most that doesn't come to rest, and for how many milliseconds.
const READINGS: usize = 10_000;

const PATIENCE: u64 = 20_000;

/// How many milliseconds are waited before it is read again.
const PAUSE: u64 = 2;

/// A folder of the system.
#[derive(Drop)]
pub(crate) struct Folder<R: Files> {
    pub rt: R,
    pub root: Text,
    /// The id of the temporary file that is written there.
    pub temp: Id,
    /// The clock of its file system. None before it was asked for.
    pub clock: Option<FileClock<R::File>>,
}

impl<R: Files + Clock + Alloc + Clone + Drop> Folder<R>
where
    R::File: TakesTurns,
{
    /// The files of one of its folders, read while it is at rest. A fault if it comes to none.
    pub fn list(&mut self, alloc: Global, dir: Dir) -> Result<Listing, Trouble>
        ensures fits { IfOk result (IsListing dir) }
        ensures timely { IfOk result (IsUpToMoment dir) }
    {
        let name = self.folder_name(alloc, dir)?;
        let _turn = turn_at(&self.rt, name.as_str(), Turn::Alone)?;
        let end = self.moment(alloc)?.saturating_add(PATIENCE);
        for _ in 0..READINGS {
            let told = self.tell(alloc)?;
            if let Some(listing) = self.list_at(alloc, dir, name.as_str(), &told)? {
                return Ok(listing);
            }
            if end < stamp_of(&told) {
                break;
            }
            sleep(&self.rt, Duration::from_millis(PAUSE));
        }
        Err(Trouble::Fault)
    }

    /// Its files at the moment that the clock told. None where it isn't at rest since then.
    fn list_at(
        &self,
        alloc: Global,
        dir: Dir,
        name: &str,
        told: &Metadata,
    ) -> Result<Option<Listing>, Trouble>
        ensures fits { IfOk result (λ listing. IfSome listing (IsListing dir)) }
        ensures timely { IfOk result (λ listing. IfSome listing (IsUpToMoment dir)) }
    {
        let now = stamp_of(told);
        let Some(names) = names_in(&self.rt, alloc, name)? else {
            return Ok(Some(none_in(alloc, dir, now)?));
        };
        if !is_at_rest(&self.rt, name, told)? {
            return Ok(None);
        }
        let entries = entries_of(alloc, &names, dir, latest_in(dir, now))?;
        Ok(Some(Listing { now, entries }))
    }

    /// What a file holds.
    pub fn get(&self, alloc: Global, path: &Path) -> Result<Option<Reading>, Trouble>
        ensures { IfOk result (λ reading. IfSome reading (IsWithin (limit_of path.now))) }
    {
        let name = self.file_name(alloc, path)?;
        read(&self.rt, alloc, name.as_str(), limit_of(path))
    }

    /// Puts a file, flushes it and its folder, and answers when it was written.
    pub fn put(&self, alloc: Global, path: &Path, content: &[u8]) -> Result<u64, Trouble>
        ensures { IfOk result (λ stamp. stamp ≤ MAX_TIME) }
    {
        self.make(alloc, path.dir())?;
        let stamp = self.write(alloc, path, content)?;
        self.flush(alloc, path.dir())?;
        Ok(stamp)
    }

    /// Writes a file, and answers when that was: a lock in place, any other by its temporary file.
    fn write(&self, alloc: Global, path: &Path, content: &[u8]) -> Result<u64, Trouble>
        ensures { IfOk result (λ stamp. stamp ≤ MAX_TIME) }
    {
        let name = self.file_name(alloc, path)?;
        if let Path::Lock(_) = path {
            return write_in_place(&self.rt, name.as_str(), content);
        }
        let temp = self.temp_name(alloc)?;
        let folder = self.folder_name(alloc, path.dir())?;
        let place = Place {
            temp: temp.as_str(),
            name: name.as_str(),
            folder: folder.as_str(),
        };
        replace(&self.rt, place, content)
    }

    /// Deletes a file, and flushes its folder. None where there is none.
    pub fn delete(&self, alloc: Global, path: &Path) -> Result<Option<()>, Trouble> {
        let name = self.file_name(alloc, path)?;
        if !is_file(&self.rt, name.as_str())? {
            return Ok(None);
        }
        match found(fs::remove_file(&self.rt, &name))? {
            Some(()) => Ok(Some(self.flush(alloc, path.dir())?)),
            None => Ok(None),
        }
    }

    /// Flushes one of its folders.
    fn flush(&self, alloc: Global, dir: Dir) -> Result<(), Trouble> {
        flush_folder(&self.rt, self.folder_name(alloc, dir)?.as_str())
    }

    /// Makes one of its folders, unless it is there. It makes no root.
    pub fn make(&self, alloc: Global, dir: Dir) -> Result<(), Trouble> {
        if dir == Dir::Root {
            return Ok(());
        }
        let name = self.folder_name(alloc, dir)?;
        if make_folder(&self.rt, name.as_str())? {
            self.flush(alloc, Dir::Root)?;
        }
        Ok(())
    }

    /// The moment, by the clock of the file system.
    pub fn moment(&mut self, alloc: Global) -> Result<u64, Trouble>
        ensures { IfOk result (λ moment. moment ≤ MAX_TIME) }
    {
        Ok(stamp_of(&self.tell(alloc)?))
    }

    /// What the clock tells this moment. One that fails is let go, and another made.
    fn tell(&mut self, alloc: Global) -> Result<Metadata, Trouble> {
        if let Some(mut clock) = self.clock.take() {
            if let Ok(told) = clock.tell() {
                self.clock = Some(clock);
                return Ok(told);
            }
        }
        let name = self.clock_name(alloc)?;
        let (clock, told) = clock_by(&self.rt, name.as_str())?;
        self.clock = Some(clock);
        Ok(told)
    }

    /// The name of the temporary file, whose folder it makes.
    fn temp_name(&self, alloc: Global) -> Result<PathBuf, Trouble>
        ensures { IfOk result
            (λ name. path_buf_bytes name ≡ path_join self.now.root (path_text (Path.Temp self.now.temp))) }
    {
        self.make(alloc, Dir::Temp)?;
        let temp = Path::Temp(self.temp).text(alloc)?;
        Ok(self.name_of(alloc, temp.as_str())?)
    }

    /// The name that the clock's file has when it is made, which no file of a target has.
    fn clock_name(&self, alloc: Global) -> Result<PathBuf, Trouble>
        ensures { IfOk result (λ name. path_buf_bytes name ≡
            path_set_extension (path_join self.now.root (path_text (Path.Temp self.now.temp)))
            (codes "clock.tmp")) }
    {
        let mut name = self.temp_name(alloc)?;
        name.set_extension("clock.tmp")?;
        Ok(name)
    }

    /// The system's name of one of its folders. One below the root is a fault if it is a link, since that leads out of
    /// the target. The slash at the end keeps the system from opening anything but a folder.
    fn folder_name(&self, alloc: Global, dir: Dir) -> Result<PathBuf, Trouble> {
        let mut name = self.name_of(alloc, dir.as_str())?;
        if dir != Dir::Root && is_link(&self.rt, name.as_str())? {
            return Err(Trouble::Fault);
        }
        name.push("")?;
        Ok(name)
    }

    /// The system's name of a file, whose folder is no link.
    fn file_name(&self, alloc: Global, path: &Path) -> Result<PathBuf, Trouble> {
        self.folder_name(alloc, path.dir())?;
        Ok(self.name_of(alloc, path.text(alloc)?.as_str())?)
    }

    /// The system's name of what bears this name on the target.
    fn name_of(&self, alloc: Global, name: &str) -> Result<PathBuf, AllocError>
        ensures { IfOk result (λ whole. path_buf_bytes whole ≡ path_join self.now.root name.now) }
    {
        let mut whole = PathBuf::from_str(alloc, self.root.as_str())?;
        whole.push(name)?;
        Ok(whole)
    }
}

/// That a folder which isn't there has no files. A root always is there.
fn none_in(alloc: Global, dir: Dir, now: u64) -> Result<Listing, Trouble>
    requires { now ≤ MAX_TIME }
    ensures fits { IfOk result (IsListing dir) }
    ensures timely { IfOk result (IsUpToMoment dir) }
{
    if dir == Dir::Root {
        return Err(Trouble::Fault);
    }
    Ok(Listing {
        now,
        entries: Seq::new(alloc),
    })
}

/// The last time that a file of a folder has in a listing of this moment. An item that was written later is to be
/// newer to whoever lists it again, and no item may hide the ones that come until its moment has come. A lock has its
/// own time.
fn latest_in(dir: Dir, now: u64) -> u64
    ensures { result ≡ latest_in dir now }
{
    match dir {
        Dir::Root => now,
        _ => MAX_TIME,
    }
}

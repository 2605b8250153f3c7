ghost use Rattle.std.specs.Prelude.{◌≡◌, ◌≤◌, IfOk, None};
ghost use Rattle.jop_target.specs.declared.call.Call.TheVariants.{Get, Delete, GetBlob};
ghost use Rattle.target_files.specs.Outcome.{IsAnswerTo, LeavesBlob, Counts};

use crate::files::Reading;
use crate::folder::Folder;
use crate::trouble::Trouble;
use crate::turn::TakesTurns;
use jop_base::{Bytes, Id, Path, Text};
use jop_target::{Call, Reply, Target};
use std::alloc::{AllocError, Global};
use std::marker::Model;
use std::rt::{Clock, Files};

/// A target over a folder of the system, which other programs see too. It tells no store, since no clause can say what
/// stands in a folder.
///
/// **Files.** A file has its path's text as its name below the root. A lock is written in place, since its time has to
/// be the moment from which others see it: a rename would show it late, with the time of its writing, and whoever
/// removed it first would be without it for a moment. Any other file is written to `temp/<temp>.tmp` and renamed over
/// its place, so it is whole or not there, also if the program is killed in the middle; it takes the rights of the file
/// that it replaces, and not its owner, nor bits that let it run as its owner. Then its last byte is written once more
/// where it stands, so that it has the time of a moment at which others see it; an empty one keeps that of its making.
/// `temp`, and the folder of a file that is put, are made where they are missing. The root never is.
///
/// **Listings.** A name that stands from the beginning of a listing to its end is in it. A reading of a folder may
/// miss a file that is renamed over another one meanwhile, so it counts only if the folder wasn't changed from a
/// moment before it until its end, by the clock of the file system. If it was, it is read again, for at least 20
/// seconds; a folder that comes to no rest then is a fault. Runs of this program don't disturb each other: a listing
/// takes its turn at the folder alone, and a put shares one while it renames (`flock`). Whoever waits a second for a
/// turn goes on without, and so does each where the system has none. No file in the root has a time past the moment
/// that a listing tells: what was written later has that one, and so is newer to whoever lists it again.
///
/// **Links.** A symbolic link is no file, wherever it leads: it isn't listed, a get and a delete find nothing there, a
/// lock that is put there is a fault, and any other file that is put replaces the link. Nothing is written through one.
/// The temporary file and the clock's are made anew (`O_EXCL`), and what bears their name is removed first. A lock is
/// written only if the file that was opened is the one that bore the name, and has that name alone: what has a second
/// one (a hard link) is a fault. The standard library can't open a file without following a link, so a link that comes
/// between the look and the opening is opened, seen to be another file, and closed again. A folder below the root that
/// is a link is a fault for each call that uses it, since it leads out of the target, but for one that comes just when
/// it was looked at. The root may be one.
///
/// **If the machine stops.** A put flushes its file (fsync) before the rename, and its folder before its reply; a
/// delete flushes its folder, and a folder that is made the root. So what was answered `Done` stays done. A file
/// system that can't flush a folder, and says so, promises no more than it does. A run that is killed, or a machine
/// that stops, between the rename and the last byte leaves a file whose time is before the moment at which others see
/// it. The clock's file isn't flushed, since nobody reads it.
///
/// **Times** are those of the file system, in whole milliseconds since 1970, rounded down: 0 before 1970, and at most
/// `MAX_TIME`. They are told by a clock, which the first call but a put makes: a file `temp/<temp>.clock.tmp`, whose
/// name is removed as soon as its time was taken, and which stays open as long as the target. Each later call but a put
/// first writes a byte of it and takes its time as `now`; a listing does so before each reading. Where that fails,
/// since the disk is full or the file system keeps no file without a name, another clock is made, and the time of its
/// making is the moment. The `now` of a put is the time of its own file.
///
/// **What isn't there.** A missing file is `Absent`, a missing folder has no files, and `MakeDir` of a folder that is
/// there is `Done`. A directory, a link, a pipe or a device is no file, whatever its name: no call opens one, a delete
/// leaves it. A listing leaves out names that no path has, and files that are gone before their time is read.
///
/// **Limits.** A file that is longer than its limit is `TooLarge` by its length, and isn't read. If a file grows while
/// it is read, only what it was long at first is.
///
/// **Faults.** Every other error of the system raises the count and is `Failed`: a root that isn't there or is a file,
/// a full disk, a file that is cut short while it is read, a lock that is put where something stands that is no file.
/// So is a name that is given to another file each time that it is opened, and a listing of a folder that holds a name
/// which isn't UTF-8, or in which the system names a file twice. Nothing else is `Failed`. Want of memory is no fault.
///
/// **What is left behind.** A call that fails removes its temporary file, and a lock that it made and couldn't write. A
/// run that is killed may leave one of each; a later run overwrites its client's lock, and leaves the temporary file,
/// since it removes nothing that it didn't make. Of the clock nothing is left, but for its file where the run is killed
/// before the name is removed, and so before there is another temporary file.
#[derive(Drop)]
pub struct FolderTarget<R: Files> {
    folder: Folder<R>,
    faults: u64,
}

impl<R: Files> Model for FolderTarget<R> {
    ghost use Rattle.target_files.specs.Folders.{FolderNow};

    ghost Value = { FolderNow };

    ghost view = { λ t. record { faults = t.faults } };
}

impl<R: Files + Clock + Alloc + Clone + Drop> FolderTarget<R>
where
    R::File: TakesTurns,
{
    /// A target over the folder `root`, whose temporary file has the id `temp`: no two targets over one folder may
    /// have the same. The folder isn't looked at yet.
    pub fn new(rt: R, root: Text, temp: Id) -> FolderTarget<R>
        ensures { result.faults ≡ 0 }
    {
        FolderTarget {
            folder: Folder {
                rt,
                root,
                temp,
                clock: None,
            },
            faults: 0,
        }
    }

    /// How often it has failed. At 2^64 - 1 the count stays.
    pub fn faults(&self) -> u64
        ensures { result ≡ self.now.faults }
    {
        self.faults
    }

    fn answer(&mut self, alloc: Global, call: &Call, blob: &mut Bytes) -> Result<Reply, Trouble>
        ensures fits { IfOk result (IsAnswerTo call.now) }
        ensures blob { LeavesBlob blob.old result blob.new }
        ensures stays { self.new ≡ self.old }
    {
        match call {
            Call::List(dir) => Ok(Reply::Listed(self.folder.list(alloc, *dir)?)),
            Call::Get(path) => self.get(alloc, path),
            Call::Put(path, content) => {
                let now = self.folder.put(alloc, path, content.as_slice())?;
                Ok(Reply::Done { now })
            }
            Call::Delete(path) => self.delete(alloc, path),
            Call::MakeDir(dir) => {
                let now = self.folder.moment(alloc)?;
                self.folder.make(alloc, *dir)?;
                Ok(Reply::Done { now })
            }
            Call::GetBlob(id) => self.get_blob(alloc, *id, blob),
            Call::PutBlob { id, .. } => {
                let now = self.folder.put(alloc, &Path::Blob(*id), blob.as_slice())?;
                Ok(Reply::Done { now })
            }
        }
    }

    fn get(&mut self, alloc: Global, path: &Path) -> Result<Reply, Trouble>
        ensures fits { IfOk result (IsAnswerTo (Get path.now)) }
        ensures stays { self.new ≡ self.old }
    {
        let now = self.folder.moment(alloc)?;
        match self.folder.get(alloc, path)? {
            None => Ok(Reply::Absent { now }),
            Some(Reading::TooLarge(len)) => Ok(Reply::TooLarge { len }),
            Some(Reading::Whole(bytes)) => Ok(Reply::Got {
                now,
                content: Bytes::from_vec(bytes),
            }),
        }
    }

    fn get_blob(&mut self, alloc: Global, id: Id, blob: &mut Bytes) -> Result<Reply, Trouble>
        ensures fits { IfOk result (IsAnswerTo (GetBlob id)) }
        ensures blob { LeavesBlob blob.old result blob.new }
        ensures stays { self.new ≡ self.old }
    {
        let now = self.folder.moment(alloc)?;
        match self.folder.get(alloc, &Path::Blob(id))? {
            None => Ok(Reply::Absent { now }),
            Some(Reading::TooLarge(len)) => Ok(Reply::TooLarge { len }),
            Some(Reading::Whole(bytes)) => {
                let len = bytes.len() as u64;
                *blob = Bytes::from_vec(bytes);
                Ok(Reply::GotBlob { now, len })
            }
        }
    }

    fn delete(&mut self, alloc: Global, path: &Path) -> Result<Reply, Trouble>
        ensures fits { IfOk result (IsAnswerTo (Delete path.now)) }
        ensures stays { self.new ≡ self.old }
    {
        let now = self.folder.moment(alloc)?;
        match self.folder.delete(alloc, path)? {
            Some(()) => Ok(Reply::Done { now }),
            None => Ok(Reply::Absent { now }),
        }
    }

    /// The reply, or one fault more and `Failed`.
    fn counted(&mut self, answer: Result<Reply, Trouble>) -> Result<Reply, AllocError>
        ensures counts { Counts self.old.faults answer result self.new.faults }
        ensures later { self.old.faults ≤ self.new.faults }
    {
        match answer {
            Ok(reply) => Ok(reply),
            Err(Trouble::NoMemory) => Err(AllocError),
            Err(Trouble::Fault) => {
                self.faults = self.faults.saturating_add(1);
                Ok(Reply::Failed)
            }
        }
    }
}

impl<R: Files + Clock + Alloc + Clone + Drop> Target for FolderTarget<R>
where
    R::File: TakesTurns,
{
    ghost state = { λ t. record { store = None; faults = t.faults } };

    fn call(&mut self, alloc: Global, call: &Call, blob: &mut Bytes) -> Result<Reply, AllocError> {
        let answer = self.answer(alloc, call, blob);
        self.counted(answer)
    }
}

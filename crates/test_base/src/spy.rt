use std::alloc::{Allocator, Global};
use std::fs::{self, File, FileTimes, Metadata, OpenFile, OpenOptions, Permissions};
use std::io;
use std::io::{ErrorKind, Read, Seek, SeekFrom, Write};
use std::rt::{Clock, Files};
use std::time::Duration;
use target_files::{TakesTurns, Turn};

/// How the files of a spy are read: so many bytes at once, so many in all. Then the file ends, or reading it fails.
#[derive(Clone, Copy)]
pub(crate) struct Reads {
    pub piece: usize,
    pub in_all: usize,
    pub fails: bool,
}

/// The files of the system, below a folder. A file beside it gets a line for each thing that is asked of them.
#[derive(Clone, Copy)]
pub(crate) struct Spy<'a> {
    pub real: &'a HostRuntime,
    pub folder: &'a str,
    pub log: &'a str,
    pub reads: Reads,
}

impl Spy<'_> {
    /// Writes a line.
    pub fn tell(&self, what: &str, path: &str) -> io::Result<()> {
        let mut how = OpenOptions::new();
        let mut log = how.append(true).create(true).open(self.real, self.log)?;
        log.write_all(what.as_bytes())?;
        log.write_all(path.strip_prefix(self.folder).unwrap_or(path).as_bytes())?;
        log.write_all(b"\n".as_slice())
    }
}

impl Alloc for Spy<'_> {
    type A = Global;

    fn alloc(&self) -> Global {
        self.real.alloc()
    }
}

impl Clock for Spy<'_> {
    fn monotonic(&self) -> io::Result<Duration> {
        self.real.monotonic()
    }

    fn since_1970(&self) -> io::Result<Duration> {
        self.real.since_1970()
    }

    fn sleep(&self, duration: Duration) {
        self.real.sleep(duration)
    }
}

/// An open file of a spy.
#[derive(Drop)]
pub(crate) struct SpyFile<'a> {
    file: File,
    spy: Spy<'a>,
}

impl<'a> Files for Spy<'a> {
    type File = SpyFile<'a>;

    type Dir = <HostRuntime as Files>::Dir;

    fn open_file(&self, how: &OpenOptions, path: &str) -> io::Result<SpyFile<'a>> {
        let what = if how.asks_create_new() {
            "make "
        } else {
            "open "
        };
        self.tell(what, path)?;
        let file = how.open(self.real, path)?;
        Ok(SpyFile { file, spy: *self })
    }

    fn open_dir(&self, path: &str) -> io::Result<<HostRuntime as Files>::Dir> {
        self.tell("list ", path)?;
        self.real.open_dir(path)
    }

    fn metadata(&self, path: &str) -> io::Result<Metadata> {
        self.tell("look past links at ", path)?;
        self.real.metadata(path)
    }

    fn symlink_metadata(&self, path: &str) -> io::Result<Metadata> {
        self.tell("look at ", path)?;
        self.real.symlink_metadata(path)
    }

    fn copy(&self, from: &str, to: &str) -> io::Result<u64> {
        self.real.copy(from, to)
    }

    fn rename(&self, from: &str, to: &str) -> io::Result<()> {
        self.tell("rename to ", to)?;
        self.real.rename(from, to)
    }

    fn remove_file(&self, path: &str) -> io::Result<()> {
        self.tell("remove ", path)?;
        self.real.remove_file(path)
    }

    fn create_dir(&self, path: &str) -> io::Result<()> {
        self.real.create_dir(path)
    }

    fn remove_dir(&self, path: &str) -> io::Result<()> {
        self.real.remove_dir(path)
    }

    fn remove_dir_all<B: Allocator>(&self, alloc: B, path: &str) -> io::Result<()> {
        self.real.remove_dir_all(alloc, path)
    }
}

impl OpenFile for SpyFile<'_> {
    fn metadata(&self) -> io::Result<Metadata> {
        self.spy.tell("its time", "")?;
        self.file.metadata()
    }

    fn set_len(&self, size: u64) -> io::Result<()> {
        self.spy.tell("cut", "")?;
        self.file.set_len(size)
    }

    fn sync_all(&self) -> io::Result<()> {
        self.spy.tell("flush", "")?;
        self.file.sync_all()
    }

    fn sync_data(&self) -> io::Result<()> {
        self.file.sync_data()
    }

    fn set_permissions(&self, rights: Permissions) -> io::Result<()> {
        self.file.set_permissions(rights)
    }

    fn try_clone(&self) -> io::Result<Self> {
        self.spy.tell("another handle", "")?;
        Ok(SpyFile {
            file: self.file.try_clone()?,
            spy: self.spy,
        })
    }
}

impl TakesTurns for SpyFile<'_> {
    fn take_turn(&self, turn: Turn) -> io::Result<bool> {
        let word = match turn {
            Turn::Alone => "take a turn alone",
            Turn::Shared => "share a turn",
        };
        self.spy.tell(word, "")?;
        self.file.take_turn(turn)
    }
}

impl Read for SpyFile<'_> {
    fn read(&mut self, into: &mut [u8]) -> io::Result<usize> {
        self.spy.tell("read", "")?;
        let Reads {
            piece,
            in_all,
            fails,
        } = self.spy.reads;
        if in_all == 0 && fails {
            return Err(io::Error::from(ErrorKind::PermissionDenied));
        }
        let most = piece.min(in_all).min(into.len());
        let count = self.file.read(&mut into[..most])?;
        self.spy.reads.in_all = in_all.saturating_sub(count);
        Ok(count)
    }
}

impl Write for SpyFile<'_> {
    fn write(&mut self, from: &[u8]) -> io::Result<usize> {
        self.spy.tell("write", "")?;
        self.file.write(from)
    }

    fn flush(&mut self) -> io::Result<()> {
        self.file.flush()
    }
}

impl Seek for SpyFile<'_> {
    fn seek(&mut self, to: SeekFrom) -> io::Result<u64> {
        self.spy.tell("go back", "")?;
        self.file.seek(to)
    }
}

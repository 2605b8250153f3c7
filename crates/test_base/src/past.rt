use crate::folder::path_in;
use std::alloc::AllocError;
use std::fs::{self, File, Permissions};
use std::io;
use std::os::unix::fs::{MetadataExt, PermissionsExt, symlink};
use std::test::Fail;

/// The names of files in the folder of a target.
pub(crate) const NOTE: &str = "/22222222222222222222222222222222.md";

pub(crate) const LOCK: &str = "/locks/1_3_11111111111111111111111111111111.json";

pub(crate) const BLOB: &str = "/.resource/22222222222222222222222222222222";

pub(crate) const TEMP: &str = "/temp/11111111111111111111111111111111.tmp";

pub(crate) const CLOCK: &str = "/temp/11111111111111111111111111111111.clock.tmp";

/// What is done to a file or folder past the target.
#[derive(Clone, Copy)]
pub(crate) enum Deed {
    Write(&'static str),
    /// A file of so many bytes is made. It takes no room on the disk.
    MakeLong(u64),
    MakeDir,
    /// A link that leads there is made.
    MakeLink(&'static str),
    /// Nobody else may read or write it.
    Hide,
    /// Everybody may run it, as its owner.
    LetRun,
    RemoveFile,
    RemoveDir,
}

/// What is looked for past the target.
#[derive(Clone, Copy)]
pub(crate) enum Sight {
    Content,
    /// Whether something is there.
    Presence,
    /// Who may read, write and run it, and as whom, as `chmod` takes it.
    Rights,
}

fn make_long(rt: &HostRuntime, path: &str, len: u64) -> io::Result<()> {
    File::create(rt, path)?.set_len(len)
}

impl Deed {
    fn act(self, rt: &HostRuntime, path: &str) -> io::Result<()> {
        match self {
            Deed::Write(text) => fs::write(rt, path, text),
            Deed::MakeLong(len) => make_long(rt, path, len),
            Deed::MakeDir => fs::create_dir(rt, path),
            Deed::MakeLink(to) => symlink(rt, to, path),
            Deed::Hide => fs::set_permissions(rt, path, Permissions::from_mode(0o600)),
            Deed::LetRun => fs::set_permissions(rt, path, Permissions::from_mode(0o4755)),
            Deed::RemoveFile => fs::remove_file(rt, path),
            Deed::RemoveDir => fs::remove_dir(rt, path),
        }
    }

    /// Does it to the file of this name in a folder.
    pub(crate) fn act_in(self, rt: &HostRuntime, folder: &str, name: &str) -> io::Result<()> {
        let path = path_in(rt.alloc(), folder, name)?;
        self.act(rt, path.as_str())
    }
}

fn presence(rt: &HostRuntime, path: &str) -> io::Result<String> {
    let word = if fs::exists(rt, path)? {
        "there"
    } else {
        "gone"
    };
    Ok(String::from_str(rt.alloc(), word)?)
}

fn rights(rt: &HostRuntime, path: &str) -> io::Result<String> {
    let rights = fs::metadata(rt, path)?.mode() & 0o7777;
    Ok(format!(in rt.alloc(); "{rights:o}")?)
}

impl Sight {
    fn tell(self, rt: &HostRuntime, path: &str) -> io::Result<String> {
        match self {
            Sight::Content => fs::read_to_string(rt, path),
            Sight::Presence => presence(rt, path),
            Sight::Rights => rights(rt, path),
        }
    }

    /// Tells what is seen of the file of this name in a folder, on a line.
    pub(crate) fn tell_in(self, rt: &HostRuntime, folder: &str, name: &str) -> io::Result<String> {
        let path = path_in(rt.alloc(), folder, name)?;
        let mut line = self.tell(rt, path.as_str())?;
        line.push('\n')?;
        Ok(line)
    }
}

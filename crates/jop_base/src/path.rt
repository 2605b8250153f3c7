ghost use Rattle.std.specs.Prelude.{◌≡◌, ◌++◌, IfOk, IfSome, MatchOption};
ghost use Rattle.jop_base.specs.Paths.{IsPath, path_text, file_name, is_guarded, dir_of, id_of};

use crate::copied::Copied;
use crate::dir::Dir;
use crate::id::Id;
use crate::lock_name::LockName;
use crate::text::Text;
use std::alloc::{AllocError, Global};
use std::fmt;

/// A file of a target.
#[derive(Clone, Copy, Debug, PartialEq, Eq)]
pub enum Path {
    /// The settings, keys and version of the target.
    Info,
    /// The version of a target from before there was an `Info`.
    OldVersion,
    /// The text of a note, a notebook or another item.
    Item(Id),
    /// The bytes of a resource.
    Blob(Id),
    Lock(LockName),
    Temp(Id),
    /// The record that an item was deleted. Nothing makes one so far.
    Tomb(Id),
}

impl Path {
    /// The folder of the file.
    pub fn dir(&self) -> Dir
        ensures { result ≡ dir_of self.now }
    {
        match self {
            Path::Info | Path::Item(_) => Dir::Root,
            Path::OldVersion => Dir::OldSync,
            Path::Blob(_) => Dir::Resources,
            Path::Lock(_) => Dir::Locks,
            Path::Temp(_) => Dir::Temp,
            Path::Tomb(_) => Dir::Tombs,
        }
    }

    /// The id that the file's name has: that of an item, a blob, a lock's client, a temporary file or an item that was
    /// deleted.
    pub fn id(&self) -> Option<Id>
        ensures id { result ≡ id_of self.now }
        ensures path { IsPath self.now }
    {
        self.prove_valid();
        match self {
            Path::Info | Path::OldVersion => None,
            Path::Item(id) | Path::Blob(id) | Path::Temp(id) | Path::Tomb(id) => Some(*id),
            Path::Lock(name) => Some(name.client),
        }
    }

    /// Does nothing. A contract learns from it that the ids of a path are ids.
    pub fn prove_valid(&self)
        ensures { IsPath self.now }
    {
        match self {
            Path::Info | Path::OldVersion => {}
            Path::Item(id) | Path::Blob(id) | Path::Temp(id) | Path::Tomb(id) => id.prove_valid(),
            Path::Lock(name) => name.prove_valid(),
        }
    }

    /// Whether the file stands outside the locks and the temporary files, so that only one who holds a lock may change
    /// it.
    pub fn is_guarded(&self) -> bool
        ensures { result ≡ is_guarded self.now }
    {
        match self {
            Path::Lock(_) | Path::Temp(_) => false,
            Path::Info | Path::OldVersion | Path::Item(_) | Path::Blob(_) | Path::Tomb(_) => true,
        }
    }

    /// The name of the file in its folder.
    pub fn file_name(&self, alloc: Global) -> Result<Text, AllocError>
        ensures { IfOk result (λ text. text ≡ file_name self.now) }
    {
        let name = FileName { path: self };
        Ok(Text::from_string(format!(in alloc; "{name}")?))
    }

    /// The name of the file on the target, from the root on.
    pub fn text(&self, alloc: Global) -> Result<Text, AllocError>
        ensures { IfOk result (λ text. text ≡ path_text self.now) }
    {
        Ok(Text::from_string(format!(in alloc; "{self}")?))
    }
}

impl Copied for Path {
    fn copy(&self, _alloc: Global) -> Result<Path, AllocError> {
        Ok(*self)
    }
}

impl fmt::Display for Path {
    ghost use Rattle.std.specs.Prelude.{Some};
    ghost use Rattle.jop_base.specs.Paths.{path_text};

    ghost output = { λ path. Some (path_text path) };

    fn fmt<W: fmt::Write>(&self, f: &mut fmt::Formatter<W>) -> fmt::Result {
        let (prefix, name) = (self.dir().prefix(), FileName { path: self });
        write!(f, "{prefix}{name}")
    }
}

/// The name of a file in its folder, as it is written.
#[derive(Clone, Copy, Debug)]
struct FileName<'a> {
    path: &'a Path,
}

impl fmt::Display for FileName<'_> {
    ghost use Rattle.std.specs.Prelude.{Some};
    ghost use Rattle.jop_base.specs.Paths.{file_name};

    ghost output = { λ name. Some (file_name name.path.now) };

    fn fmt<W: fmt::Write>(&self, f: &mut fmt::Formatter<W>) -> fmt::Result {
        match self.path {
            Path::Info => f.write_str("info.json"),
            Path::OldVersion => f.write_str("version.txt"),
            Path::Item(id) => write!(f, "{id}.md"),
            Path::Blob(id) | Path::Tomb(id) => write!(f, "{id}"),
            Path::Lock(name) => write!(f, "{name}"),
            Path::Temp(id) => write!(f, "{id}.tmp"),
        }
    }
}

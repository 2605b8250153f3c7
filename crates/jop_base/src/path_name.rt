ghost use Rattle.std.specs.Prelude.{◌≡◌, ◌++◌, ℕ, List, IfSome, IfNone};
ghost use Rattle.jop_base.specs.Id.{IsIdText};
ghost use Rattle.jop_base.specs.Order.{path_cmp, rank_of};
ghost use Rattle.jop_base.specs.declared.path.Path.{Path};
ghost use Rattle.jop_base.specs.Paths.{HasNoFile, IsPath, IsNamed, path_text};

use crate::dir::Dir;
use crate::id::Id;
use crate::lock_name::{LockKind, LockName};
use crate::path::Path;
use std::cmp::Ordering;

impl Path {
    /// The file that has this name in that folder. None exactly if no file has.
    pub fn read(dir: Dir, name: &[u8]) -> Option<Path>
        ensures some { IfSome result (λ path. IsNamed path dir name.now × IsPath path) }
        ensures none { IfNone result ((path : Path) → IsPath path → ¬ IsNamed path dir name.now) }
    {
        match dir {
            Dir::Root => read_root(name),
            Dir::Resources => Some(Path::Blob(Id::read(name)?)),
            Dir::OldSync => read_old(name),
            Dir::Locks => Some(Path::Lock(LockName::read(name)?)),
            Dir::Temp => Some(Path::Temp(id_before(name, b".tmp")?)),
            Dir::Tombs => Some(Path::Tomb(Id::read(name)?)),
        }
    }

    /// The file that has this text. None exactly if no file has.
    pub fn of_text(text: &[u8]) -> Option<Path>
        ensures some { IfSome result (λ path. (path_text path ≡ text.now) × IsPath path) }
        ensures none { IfNone result ((path : Path) → IsPath path → ¬ (path_text path ≡ text.now)) }
    {
        for dir in &Dir::ALL {
            if let Some(path) = read_in(*dir, text) {
                return Some(path);
            }
        }
        None
    }

    /// The order of the texts, by bytes.
    pub fn compare(&self, other: &Path) -> Ordering
        ensures { result ≡ path_cmp self.now other.now }
    {
        let (own, others) = (self.id(), other.id());
        match rank(self).cmp(&rank(other)) {
            Ordering::Equal => own.cmp(&others),
            unequal => unequal,
        }
    }
}

/// Where a path stands among those that differ in more than an id.
fn rank(path: &Path) -> u32
    ensures { result ≡ rank_of path.now }
{
    match path {
        Path::Blob(_) => 100,
        Path::OldVersion => 200,
        Path::Item(id) => 10 * id.first_two(),
        Path::Info => 300_000,
        Path::Lock(name) => match name.kind {
            LockKind::Sync => 400_000 + u32::from(name.client_type),
            LockKind::Exclusive => 410_000 + u32::from(name.client_type),
        },
        Path::Temp(_) => 500_000,
        Path::Tomb(_) => 257_011,
    }
}

/// The file of a folder that has this text.
fn read_in(dir: Dir, text: &[u8]) -> Option<Path>
    ensures some { IfSome result (λ path. (path_text path ≡ text.now) × IsPath path) }
    ensures none { IfNone result (HasNoFile dir text.now) }
{
    Path::read(dir, text.strip_prefix(dir.prefix().as_bytes())?)
}

fn read_root(name: &[u8]) -> Option<Path>
    ensures some { IfSome result (λ path. IsNamed path Dir.Root name.now × IsPath path) }
    ensures none { IfNone result ((path : Path) → IsPath path → ¬ IsNamed path Dir.Root name.now) }
{
    if name == b"info.json".as_slice() {
        return Some(Path::Info);
    }
    Some(Path::Item(id_before(name, b".md")?))
}

fn read_old(name: &[u8]) -> Option<Path>
    ensures some { IfSome result (λ path. IsNamed path Dir.OldSync name.now × IsPath path) }
    ensures none { IfNone result ((path : Path) → IsPath path → ¬ IsNamed path Dir.OldSync name.now) }
{
    if name == b"version.txt".as_slice() {
        Some(Path::OldVersion)
    } else {
        None
    }
}

/// The id that stands before the ending of a name. None exactly if no id does.
pub(crate) fn id_before(name: &[u8], ending: &[u8]) -> Option<Id>
    ensures some { IfSome result (λ id. (id ++ ending.now ≡ name.now) × IsIdText id) }
    ensures none { IfNone result
        ((id : List ℕ) → IsIdText id → ¬ (id ++ ending.now ≡ name.now)) }
{
    Some(Id::read(before(name, ending)?)?)
}

/// What stands before the ending of a name, if it has that ending.
fn before<'a>(name: &'a [u8], ending: &[u8]) -> Option<&'a [u8]>
    ensures some { IfSome result (λ start. start.now ++ ending.now ≡ name.now) }
    ensures none { IfNone result ((start : List ℕ) → ¬ (start ++ ending.now ≡ name.now)) }
{
    if name.len() < ending.len() {
        return None;
    }
    let (start, end) = name.split_at(name.len() - ending.len());
    if end == ending { Some(start) } else { None }
}

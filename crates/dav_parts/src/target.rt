ghost use Rattle.std.specs.Prelude.{◌≡◌, ◌++◌, ℕ, List, IfOk, IfSome, IfNone};
ghost use Rattle.jop_base.specs.Paths.{IsPath};
ghost use Rattle.jop_base.specs.declared.dir.Dir.{Dir};
ghost use Rattle.jop_base.specs.declared.path.Path.{Path};
ghost use Rattle.dav_parts.specs.Targets.{path_target, dir_target, is_blob_target, put_limit};

use jop_base::{Bytes, Dir, Id, Path};
use jop_target::{BLOB_LIMIT, FILE_LIMIT};
use std::alloc::{AllocError, Global};

/// The target of a file: a slash and its path's text.
pub fn path_target(alloc: Global, path: &Path) -> Result<Bytes, AllocError>
    ensures { IfOk result (λ text. text ≡ path_target path.now) }
{
    let mut text = Bytes::new(alloc);
    text.push(b'/')?;
    text.append(path.text(alloc)?.as_slice())?;
    Ok(text)
}

/// The target of a folder, which ends with a slash.
pub fn dir_target(dir: Dir) -> &'static [u8]
    ensures { result.now ≡ dir_target dir }
{
    dir.absolute().as_bytes()
}

/// What comes after a prefix of a text. None if the text has another one.
pub(crate) fn after_prefix<'a>(text: &'a [u8], prefix: &[u8]) -> Option<&'a [u8]>
    ensures some { IfSome result (λ rest. text.now ≡ prefix.now ++ rest.now) }
    ensures none { IfNone result ((rest : List ℕ) → ¬ (text.now ≡ prefix.now ++ rest)) }
{
    if text.len() < prefix.len() {
        return None;
    }
    let (start, rest) = text.split_at(prefix.len());
    if start == prefix { Some(rest) } else { None }
}

/// The file that a target names. None if it names none.
pub fn read_path(target: &[u8]) -> Option<Path>
    ensures some { IfSome result (λ path. IsPath path × (path_target path ≡ target.now)) }
    ensures none { IfNone result
        ((path : Path) → IsPath path → ¬ (path_target path ≡ target.now)) }
{
    Path::of_text(after_prefix(target, b"/")?)
}

/// The folder that a target names. None if it names none.
pub fn read_dir(target: &[u8]) -> Option<Dir>
    ensures some { IfSome result (λ dir. dir_target dir ≡ target.now) }
    ensures none { IfNone result ((dir : Dir) → ¬ (dir_target dir ≡ target.now)) }
{
    Dir::of_prefix(after_prefix(target, b"/")?)
}

fn is_blob_target(target: &[u8]) -> bool
    ensures { result ≡ is_blob_target target.now }
{
    match after_prefix(target, dir_target(Dir::Resources)) {
        Some(name) => Id::read(name).is_some(),
        None => false,
    }
}

/// The most bytes that are put to a target. One that names no file has the limit of an item's file.
pub fn put_limit(target: &[u8]) -> u64
    ensures { result ≡ put_limit target.now }
{
    if is_blob_target(target) {
        BLOB_LIMIT
    } else {
        FILE_LIMIT
    }
}

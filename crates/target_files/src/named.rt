use crate::moment::changed_at;
use crate::trouble::{Trouble, found};
use std::fs;
use std::fs::{Metadata, OpenFile, OpenOptions};
use std::os::unix::fs::MetadataExt;
use std::rt::Files;

/// How often a file is looked for whose name is given to another one meanwhile.
pub(crate) const TRIES: usize = 100;

/// What bears a name.
#[derive(Drop)]
pub(crate) enum Named<F> {
    Nothing,
    /// A folder, a link, a pipe, a device.
    NoFile,
    File(F, Metadata),
}

/// Opens the file that bears a name, and never what a link of that name leads to.
pub(crate) fn open_named<R: Files>(
    rt: &R,
    how: &OpenOptions,
    name: &str,
) -> Result<Named<R::File>, Trouble> {
    for _ in 0..TRIES {
        if let Some(named) = open_once(rt, how, name)? {
            return Ok(named);
        }
    }
    Err(Trouble::Fault)
}

/// The system opens what a link leads to, so what was opened has to be what bore the name. It looks first, also since
/// opening a pipe may never end. None where the name was given to another file, or taken away, meanwhile.
fn open_once<R: Files>(
    rt: &R,
    how: &OpenOptions,
    name: &str,
) -> Result<Option<Named<R::File>>, Trouble> {
    let Some(seen) = found(fs::symlink_metadata(rt, name))? else {
        return Ok(Some(Named::Nothing));
    };
    if !seen.is_file() {
        return Ok(Some(Named::NoFile));
    }
    let Some(file) = found(how.open(rt, name))? else {
        return Ok(None);
    };
    let opened = file.metadata()?;
    if is_same(&seen, &opened) {
        Ok(Some(Named::File(file, opened)))
    } else {
        Ok(None)
    }
}

/// Whether both are of one file, with as many names. A second name that was taken away meanwhile may have been the one
/// that was seen.
fn is_same(seen: &Metadata, opened: &Metadata) -> bool {
    seen.dev() == opened.dev() && seen.ino() == opened.ino() && seen.nlink() == opened.nlink()
}

/// Whether the name is still borne by the file that was opened, and neither its bytes nor its names were changed since.
pub(crate) fn is_unchanged<R: Files>(
    rt: &R,
    name: &str,
    opened: &Metadata,
) -> Result<bool, Trouble> {
    match found(fs::symlink_metadata(rt, name))? {
        Some(seen) => Ok(is_same(&seen, opened) && changed_at(&seen) == changed_at(opened)),
        None => Ok(false),
    }
}

/// Whether a file bears the name, and no link to one.
pub(crate) fn is_file<R: Files>(rt: &R, name: &str) -> Result<bool, Trouble> {
    match found(fs::symlink_metadata(rt, name))? {
        Some(metadata) => Ok(metadata.is_file()),
        None => Ok(false),
    }
}

/// Whether a link bears the name.
pub(crate) fn is_link<R: Files>(rt: &R, name: &str) -> Result<bool, Trouble> {
    match found(fs::symlink_metadata(rt, name))? {
        Some(metadata) => Ok(metadata.is_symlink()),
        None => Ok(false),
    }
}

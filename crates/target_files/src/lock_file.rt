ghost use Rattle.std.specs.Prelude.{◌≤◌, IfOk};
ghost use Rattle.jop_base.specs.declared.time.TheConstants.{MAX_TIME};

use crate::moment::stamp_of;
use crate::named::{Named, TRIES, is_unchanged, open_named};
use crate::trouble::{Trouble, created};
use std::fs;
use std::fs::{File, Metadata, OpenFile, OpenOptions};
use std::io::Write;
use std::os::unix::fs::MetadataExt;
use std::rt::Files;

/// A file that is open to be written in place, and whether it was made just now.
#[derive(Drop)]
struct InPlace<F> {
    file: F,
    is_new: bool,
}

/// Writes a file in place, flushes it, and answers when it was written. If that fails, a file that was made for it is
/// removed again.
pub(crate) fn write_in_place<R: Files>(rt: &R, name: &str, content: &[u8]) -> Result<u64, Trouble>
    ensures { IfOk result (λ stamp. stamp ≤ MAX_TIME) }
{
    let InPlace { mut file, is_new } = open_in_place(rt, name)?;
    let stamp = overwrite(&mut file, content);
    if is_new && stamp.is_err() {
        let _ = fs::remove_file(rt, name);
    }
    stamp
}

/// Opens a file to be written in place, or makes it.
fn open_in_place<R: Files>(rt: &R, name: &str) -> Result<InPlace<R::File>, Trouble> {
    for _ in 0..TRIES {
        if let Some(opened) = open_or_make(rt, name)? {
            return Ok(opened);
        }
    }
    Err(Trouble::Fault)
}

/// What is no file is a fault, and so is a file with a second name, since what stands elsewhere would be written too.
/// None where something came to bear the name meanwhile.
fn open_or_make<R: Files>(rt: &R, name: &str) -> Result<Option<InPlace<R::File>>, Trouble> {
    let mut how = OpenOptions::new();
    how.write(true);
    match open_named(rt, &how, name)? {
        Named::Nothing => make(rt, name),
        Named::NoFile => Err(Trouble::Fault),
        Named::File(_, metadata) if metadata.nlink() > 1 => Err(Trouble::Fault),
        Named::File(file, metadata) => make_or_take(rt, name, file, &metadata),
    }
}

/// Makes the file, which never is what a link of that name leads to. None where something bears the name.
fn make<R: Files>(rt: &R, name: &str) -> Result<Option<InPlace<R::File>>, Trouble> {
    match created(File::create_new(rt, name))? {
        Some(file) => Ok(Some(InPlace { file, is_new: true })),
        None => Ok(None),
    }
}

/// Makes the file, or takes the one that was opened if the name is still its and nothing of it was changed meanwhile.
/// That one may be another's, which a link led to, or which had a second name that is being taken away: the system
/// counts that no more and finds it still, but makes no file in the folder before it is gone. None where the name is
/// another's.
fn make_or_take<R: Files>(
    rt: &R,
    name: &str,
    file: R::File,
    opened: &Metadata,
) -> Result<Option<InPlace<R::File>>, Trouble> {
    let made = make(rt, name)?;
    if made.is_none() && is_unchanged(rt, name, opened)? {
        return Ok(Some(InPlace {
            file,
            is_new: false,
        }));
    }
    Ok(made)
}

/// Gives a file this content, flushes it, and answers when it was written.
fn overwrite<F: OpenFile + Write>(file: &mut F, content: &[u8]) -> Result<u64, Trouble>
    ensures { IfOk result (λ stamp. stamp ≤ MAX_TIME) }
{
    file.set_len(content.len() as u64)?;
    file.write_all(content)?;
    file.sync_all()?;
    Ok(stamp_of(&file.metadata()?))
}

ghost use Rattle.std.specs.Prelude.{◌≤◌, IfOk};
ghost use Rattle.jop_base.specs.declared.time.TheConstants.{MAX_TIME};

use crate::moment::stamp_of;
use crate::trouble::{Trouble, created, found};
use crate::turn::{TakesTurns, Turn, turn_at};
use std::fs;
use std::fs::{File, Metadata, OpenFile, Permissions};
use std::io::{Seek, SeekFrom, Write};
use std::os::unix::fs::{MetadataExt, PermissionsExt};
use std::rt::{Clock, Files};

/// Where a file is put: the name of the temporary file, the name that it gets then, and the folder of that.
#[derive(Clone, Copy)]
pub(crate) struct Place<'a> {
    pub temp: &'a str,
    pub name: &'a str,
    pub folder: &'a str,
}

/// Writes a temporary file, flushes it, gives it its name, and answers when it was written last. Where that fails it is
/// removed again.
pub(crate) fn replace<R: Files + Clock>(
    rt: &R,
    place: Place<'_>,
    content: &[u8],
) -> Result<u64, Trouble>
where
    R::File: TakesTurns,
    ensures { IfOk result (λ stamp. stamp ≤ MAX_TIME) }
{
    let mut file = make(rt, place.temp)?;
    let stamp = fill_and_rename(rt, &mut file, place, content);
    if stamp.is_err() {
        let _ = fs::remove_file(rt, place.temp);
    }
    stamp
}

/// Makes a file, which never is what a link of that name leads to. What bears the name is removed first.
pub(crate) fn make<R: Files>(rt: &R, temp: &str) -> Result<R::File, Trouble> {
    if let Some(file) = created(File::create_new(rt, temp))? {
        return Ok(file);
    }
    fs::remove_file(rt, temp)?;
    Ok(File::create_new(rt, temp)?)
}

fn fill_and_rename<R: Files + Clock>(
    rt: &R,
    file: &mut R::File,
    place: Place<'_>,
    content: &[u8],
) -> Result<u64, Trouble>
where
    R::File: TakesTurns,
    ensures { IfOk result (λ stamp. stamp ≤ MAX_TIME) }
{
    take_rights(rt, file, place.name)?;
    file.write_all(content)?;
    file.sync_all()?;
    let _turn = turn_at(rt, place.folder, Turn::Shared)?;
    fs::rename(rt, place.temp, place.name)?;
    rewrite_last(file, content)?;
    Ok(stamp_of(&file.metadata()?))
}

/// Writes the last byte of a file once more in its place. So its time is that of a moment at which others see it, by
/// the clock of the file system, and what it holds is the same all the time. An empty file keeps the time of its
/// making.
fn rewrite_last<F: Seek + Write>(file: &mut F, content: &[u8]) -> Result<(), Trouble> {
    let Some(last) = content.last() else {
        return Ok(());
    };
    file.seek(SeekFrom::End(-1))?;
    file.write_all(&[*last])?;
    Ok(())
}

/// Gives a file the rights of the one that bears the name, if there is one, and nothing that lets others run it as its
/// owner.
fn take_rights<R: Files>(rt: &R, file: &R::File, name: &str) -> Result<(), Trouble> {
    let Some(old) = found(fs::symlink_metadata(rt, name))? else {
        return Ok(());
    };
    let rights = rights_of(&old);
    if old.is_file() && rights != rights_of(&file.metadata()?) {
        file.set_permissions(Permissions::from_mode(rights))?;
    }
    Ok(())
}

/// Who may read, write and run a file.
fn rights_of(metadata: &Metadata) -> u32 {
    metadata.mode() & 0o777
}

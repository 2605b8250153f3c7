use crate::trouble::Trouble;
use jop_base::Text;
use keeper_sqlite::SqliteRecords;
use std::alloc::AllocError;
use std::path::PathBuf;
use std::{env, fs, process};

/// The folder of this process, in which one test is at work.
fn folder(rt: &HostRuntime) -> Result<PathBuf, Trouble> {
    let mut folder = env::temp_dir(rt)?;
    let number = process::id(rt.process());
    let name = format!(in rt.alloc(); "jop_keeper_{number}")?;
    folder.push(name.as_str())?;
    Ok(folder)
}

/// Makes the folder, empty.
pub(crate) fn clear(rt: &HostRuntime) -> Result<(), Trouble> {
    let folder = folder(rt)?;
    let _ = fs::remove_dir_all(rt, &folder);
    Ok(fs::create_dir(rt, &folder)?)
}

/// Takes the folder away.
pub(crate) fn remove(rt: &HostRuntime) -> Result<(), Trouble> {
    let folder = folder(rt)?;
    Ok(fs::remove_dir_all(rt, &folder)?)
}

/// The path of the file in the folder. It isn't there yet.
pub(crate) fn path(rt: &HostRuntime) -> Result<Text, Trouble> {
    let mut path = folder(rt)?;
    path.push("records")?;
    Ok(Text::of(rt.alloc(), path.as_str())?)
}

/// The records of a file, which is opened anew.
pub(crate) fn opened(rt: &HostRuntime, path: &Text) -> Result<SqliteRecords, AllocError> {
    let path = Text::of(rt.alloc(), path.as_str())?;
    Ok(SqliteRecords::new(*rt, path))
}

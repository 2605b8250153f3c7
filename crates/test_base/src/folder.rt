use crate::step::client;
use jop_base::Text;
use std::alloc::{AllocError, Global};
use std::path::PathBuf;
use std::test::Fail;
use std::{env, fs, io, process};
use target_files::FolderTarget;

/// A folder that is there and empty, for one test alone.
pub(crate) fn empty_folder(rt: &HostRuntime) -> io::Result<PathBuf> {
    let mut folder = env::temp_dir(rt)?;
    folder.push(format!(in rt.alloc(); "jop_target_files_{}", process::id(rt.process()))?)?;
    let _ = fs::remove_dir_all(rt, &folder);
    fs::create_dir(rt, &folder)?;
    Ok(folder)
}

/// Where a file of a folder stands. Its name begins with a slash; that of the folder itself is
/// empty.
pub(crate) fn path_in(alloc: Global, folder: &str, name: &str) -> Result<String, AllocError> {
    let mut path = String::from_str(alloc, folder)?;
    path.push_str(name)?;
    Ok(path)
}

pub(crate) fn target_over(
    rt: &HostRuntime,
    folder: &str,
) -> Result<FolderTarget<HostRuntime>, Fail> {
    let temp = client()?;
    let root = Text::of(rt.alloc(), folder)?;
    Ok(FolderTarget::new(rt.clone()?, root, temp))
}

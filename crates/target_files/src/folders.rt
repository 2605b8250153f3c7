use crate::trouble::Trouble;
use std::fs;
use std::fs::OpenFile;
use std::io::ErrorKind;
use std::path::Path;
use std::rt::Files;

/// Makes a folder. False where it is there already.
pub(crate) fn make_folder<R: Files>(rt: &R, name: &str) -> Result<bool, Trouble> {
    match fs::create_dir(rt, name) {
        Ok(()) => Ok(true),
        Err(_) if Path::new(name).is_dir(rt) => Ok(false),
        Err(error) => Err(error.into()),
    }
}

/// Flushes a folder, so that the names in it last where the machine stops. Some file systems can't, and say so.
pub(crate) fn flush_folder<R: Files>(rt: &R, name: &str) -> Result<(), Trouble> {
    match fs::open(rt, name)?.sync_all() {
        Err(error) if is_refused(error.kind()) => Ok(()),
        flushed => Ok(flushed?),
    }
}

/// Whether the system can't do what it was asked for.
fn is_refused(kind: ErrorKind) -> bool {
    matches!(kind, ErrorKind::InvalidInput | ErrorKind::Unsupported)
}

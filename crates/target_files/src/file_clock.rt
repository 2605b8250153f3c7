use crate::temporary::make;
use crate::trouble::Trouble;
use std::fs::{self, Metadata, OpenFile};
use std::io::Write;
use std::rt::Files;

/// The clock of a file system: an open file without a name, which has the time of its last writing. Nothing is left of
/// it when it is closed, also where the program is killed.
#[derive(Drop)]
pub(crate) struct FileClock<F> {
    file: F,
}

/// A clock, and what it tells when it is made. Its file bears the name only until that was told. What is kept open is
/// another handle of it, which never has the number of a standard stream: where one of those is closed, nothing that is
/// printed goes into the clock.
pub(crate) fn clock_by<R: Files>(
    rt: &R,
    name: &str,
) -> Result<(FileClock<R::File>, Metadata), Trouble> {
    let file = make(rt, name)?;
    let told = file.metadata();
    fs::remove_file(rt, name)?;
    let file = file.try_clone()?;
    Ok((FileClock { file }, told?))
}

impl<F: OpenFile + Write> FileClock<F> {
    /// What the system says of the file, which is written this moment.
    pub fn tell(&mut self) -> Result<Metadata, Trouble> {
        self.file.write_all(b".".as_slice())?;
        Ok(self.file.metadata()?)
    }
}

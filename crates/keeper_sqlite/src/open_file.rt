ghost use Rattle.keeper_sqlite.specs.Answers.{untold};

use crate::opened::Opened;
use crate::work::Work;
use keeper_file::Trouble;
use sqlite::{Connection, File, FileStore};
use std::alloc::Global;

/// An open file. It is a type of its own: in a proof of each function that knows what the database
/// itself has for it, all that the type of its pages means is written out.
#[derive(Drop)]
pub struct OpenFile {
    connection: Connection<FileStore<File>>,
}

impl OpenFile {
    /// Opens the file of a path, or makes it.
    pub(crate) fn open(rt: &HostRuntime, path: &str) -> Result<OpenFile, Trouble> {
        let connection = Connection::open(rt, path)?;
        Ok(OpenFile { connection })
    }

    /// Copies into the file itself what stands in its log.
    pub(crate) fn close(self) -> Result<(), Trouble> {
        let OpenFile { connection } = self;
        connection.close()?;
        Ok(())
    }
}

impl Opened for OpenFile {
    ghost state = { λ _. untold };

    fn do_work<W: Work>(&mut self, alloc: Global, work: &W) -> Result<W::Answer, Trouble> {
        work.done(alloc, &mut self.connection)
    }
}

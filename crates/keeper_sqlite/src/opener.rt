ghost use Rattle.std.specs.Prelude.{◌≡◌, IfOk};
ghost use Rattle.keeper_sqlite.specs.Answers.{DatabaseNow, untold};

use crate::open_file::OpenFile;
use crate::opened::Opened;
use crate::opening::open;
use jop_base::Text;
use keeper_file::Trouble;
use std::alloc::Global;
use std::rt::HostRuntime;

/// What opens a database with the tables.
pub trait Opener: Drop {
    type Database: Opened;

    /// How a database is that it opens.
    ghost opens: { Self → DatabaseNow };

    fn open(&self, alloc: Global) -> Result<Self::Database, Trouble>
        ensures { IfOk result (λ database. Self.Database.state database ≡ opens self.now) };

    /// Lets a database go.
    fn close(&self, database: Self::Database);
}

/// What opens the file of a path, or makes it.
#[derive(Drop)]
pub struct FileOpener {
    pub rt: HostRuntime,
    pub path: Text,
}

impl Opener for FileOpener {
    type Database = OpenFile;

    ghost opens = { λ _. untold };

    fn open(&self, alloc: Global) -> Result<OpenFile, Trouble> {
        let database = open(&self.rt, alloc, self.path.as_str())?;
        Ok(database)
    }

    /// Copies into the file itself what stands in its log. If that fails nothing is lost, and the
    /// next opening reads both.
    fn close(&self, database: OpenFile) {
        let _ = database.close();
    }
}

ghost use Rattle.std.specs.Prelude.{◌≡◌};

use crate::opener::FileOpener;
use crate::sql_records::SqlRecords;
use jop_base::Text;
use std::rt::HostRuntime;

/// A store of records in an SQLite file.
///
/// The file is opened at the first call, and made, with its tables, if it isn't there or is empty.
/// Every refusal of the database but want of memory raises the count, also that of the opening: a
/// file that is no database, or another program's, or of a later layout, to which nothing is
/// written; one that another program has open for longer than five seconds; a full disk; a record
/// that can't be read back. After a failed opening the next call opens the file again.
///
/// A write is one transaction, which is on the disk when it is answered. A program that is killed
/// leaves the changes that were answered, and perhaps the one that it was making.
pub type SqliteRecords = SqlRecords<FileOpener>;

impl SqlRecords<FileOpener> {
    /// A store in the file of this path. It isn't opened yet.
    pub fn new(rt: HostRuntime, path: Text) -> SqliteRecords
        ensures { result.faults ≡ 0 }
    {
        SqlRecords::over(FileOpener { rt, path })
    }
}

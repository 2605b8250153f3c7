ghost use Rattle.std.specs.Prelude.{◌≡◌};

use crate::sqlite_records::SqliteRecords;
use jop_base::Text;
use keeper_records::RecordKeeper;
use std::rt::HostRuntime;

/// A keeper in an SQLite file.
pub type SqliteKeeper = RecordKeeper<SqliteRecords>;

/// A keeper in the file of this path. It isn't opened yet.
pub fn keeper_at(rt: HostRuntime, path: Text) -> SqliteKeeper
    ensures { result.store.faults ≡ 0 }
{
    RecordKeeper::over(SqliteRecords::new(rt, path))
}

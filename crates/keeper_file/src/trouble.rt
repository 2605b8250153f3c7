ghost use Rattle.std.specs.Prelude.{◌≡◌};
ghost use Rattle.std.specs.IoError.{error_kind};
ghost use Rattle.keeper_file.specs.Troubles.{of_record, trouble_of_error, trouble_of_kind};
ghost use Rattle.keeper_file.specs.declared.trouble.Trouble.TheVariants.{NoMemory};

use keeper_columns::RecordErr;
use sqlite::{Error, ErrorCode};
use std::alloc::{AllocError, AllocFailed};
use std::io;
use std::io::ErrorKind;

/// Why the database gave no answer.
#[derive(Clone, Copy, Debug, PartialEq, Eq)]
pub enum Trouble {
    /// It refused, or holds a record that can't be read back.
    Fault,
    /// Another run or program has the file open.
    Busy,
    NoMemory,
}

impl From<Error> for Trouble {
    ghost from_gives = { λ error trouble. trouble ≡ trouble_of_error error };

    fn from(error: Error) -> Trouble {
        match error {
            Error::SqliteFailure(ErrorCode::OutOfMemory) => Trouble::NoMemory,
            Error::SqliteFailure(ErrorCode::DatabaseBusy) => Trouble::Busy,
            _ => Trouble::Fault,
        }
    }
}

impl From<io::Error> for Trouble {
    ghost from_gives = { λ error trouble. trouble ≡ trouble_of_kind (error_kind error) };

    fn from(error: io::Error) -> Trouble {
        match error.kind() {
            ErrorKind::OutOfMemory => Trouble::NoMemory,
            _ => Trouble::Fault,
        }
    }
}

impl From<RecordErr> for Trouble {
    ghost from_gives = { λ error trouble. trouble ≡ of_record error };

    fn from(error: RecordErr) -> Trouble {
        match error {
            RecordErr::Bad => Trouble::Fault,
            RecordErr::NoMemory => Trouble::NoMemory,
        }
    }
}

impl From<AllocError> for Trouble {
    ghost from_gives = { λ _ trouble. trouble ≡ NoMemory };

    fn from(_: AllocError) -> Trouble {
        Trouble::NoMemory
    }
}

impl<T: Drop> From<AllocFailed<T>> for Trouble {
    ghost from_gives = { λ _ trouble. trouble ≡ NoMemory };

    fn from(_: AllocFailed<T>) -> Trouble {
        Trouble::NoMemory
    }
}

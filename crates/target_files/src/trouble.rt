ghost use Rattle.std.specs.Prelude.{◌≡◌};
ghost use Rattle.std.specs.IoError.{error_kind};
ghost use Rattle.target_files.specs.Trouble.{trouble_of, Finds, Creates};
ghost use Rattle.target_files.specs.declared.trouble.Trouble.TheVariants.{NoMemory};

use std::alloc::{AllocError, AllocFailed};
use std::io;
use std::io::ErrorKind;

/// Why a folder gave no answer.
#[derive(Clone, Copy, Debug, PartialEq, Eq)]
pub(crate) enum Trouble {
    /// The system failed.
    Fault,
    NoMemory,
}

impl From<io::Error> for Trouble {
    ghost from_gives = { λ error trouble. trouble ≡ trouble_of (error_kind error) };

    fn from(error: io::Error) -> Trouble {
        match error.kind() {
            ErrorKind::OutOfMemory => Trouble::NoMemory,
            _ => Trouble::Fault,
        }
    }
}

impl From<AllocError> for Trouble {
    ghost from_gives = { λ _ trouble. trouble ≡ NoMemory };

    fn from(_: AllocError) -> Trouble {
        Trouble::NoMemory
    }
}

impl<T: Drop> From<AllocFailed<T>> for Trouble {
    ghost from_gives = { λ _ trouble. trouble ≡ NoMemory };

    fn from(_: AllocFailed<T>) -> Trouble {
        Trouble::NoMemory
    }
}

/// What the system gave. None where there is no such file.
pub(crate) fn found<T: Drop>(given: io::Result<T>) -> Result<Option<T>, Trouble>
    ensures { Finds given result }
{
    match given {
        Ok(value) => Ok(Some(value)),
        Err(error) => match error.kind() {
            ErrorKind::NotFound | ErrorKind::IsADirectory => Ok(None),
            _ => Err(error.into()),
        },
    }
}

/// The file that was made. None where something bears its name.
pub(crate) fn created<T: Drop>(made: io::Result<T>) -> Result<Option<T>, Trouble>
    ensures { Creates made result }
{
    match made {
        Ok(file) => Ok(Some(file)),
        Err(error) if error.kind() == ErrorKind::AlreadyExists => Ok(None),
        Err(error) => Err(error.into()),
    }
}

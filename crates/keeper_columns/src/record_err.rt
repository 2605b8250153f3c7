ghost use Rattle.std.specs.Prelude.{◌≡◌};
ghost use Rattle.keeper_columns.specs.declared.record_err.RecordErr.TheVariants.{NoMemory};

use std::alloc::{AllocError, AllocFailed};

/// Why nothing was read from a record, or no record was made.
#[derive(Clone, Copy, Debug, PartialEq, Eq)]
pub enum RecordErr {
    /// The record holds nothing sound.
    Bad,
    NoMemory,
}

impl From<AllocError> for RecordErr {
    ghost from_gives = { λ _ e. e ≡ NoMemory };

    fn from(_error: AllocError) -> RecordErr {
        RecordErr::NoMemory
    }
}

impl<T: Drop> From<AllocFailed<T>> for RecordErr {
    ghost from_gives = { λ _ e. e ≡ NoMemory };

    fn from(_error: AllocFailed<T>) -> RecordErr {
        RecordErr::NoMemory
    }
}

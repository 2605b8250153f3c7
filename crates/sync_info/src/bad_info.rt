ghost use Rattle.std.specs.Prelude.{◌≡◌};
ghost use Rattle.sync_info.specs.declared.bad_info.InfoErr.TheVariants.{NoMemory};

use std::alloc::{AllocError, AllocFailed};

/// The bytes are no info's text.
#[derive(Clone, Copy, Debug, PartialEq, Eq)]
pub struct BadInfo;

/// Why an info was not read.
#[derive(Clone, Copy, Debug, PartialEq, Eq)]
pub enum InfoErr {
    Bad(BadInfo),
    NoMemory,
}

impl From<AllocError> for InfoErr {
    ghost from_gives = { λ _ e. e ≡ NoMemory };

    fn from(_refused: AllocError) -> InfoErr {
        InfoErr::NoMemory
    }
}

impl<T: Drop> From<AllocFailed<T>> for InfoErr {
    ghost from_gives = { λ _ e. e ≡ NoMemory };

    fn from(_refused: AllocFailed<T>) -> InfoErr {
        InfoErr::NoMemory
    }
}

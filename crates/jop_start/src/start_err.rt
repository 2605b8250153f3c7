ghost use Rattle.std.specs.Prelude.{◌≡◌};
ghost use Rattle.jop_start.specs.Starting.{exit_of};

use jop_outside::Failed;
use std::alloc::{AllocError, AllocFailed};

/// Why the outside of a run couldn't be made.
#[derive(Clone, Copy, Debug, PartialEq, Eq)]
pub enum StartErr {
    /// The random source gave no id for a folder's temporary files.
    EntropyFault,
    NoMemory,
}

impl StartErr {
    /// The exit status of the program.
    pub fn exit(self) -> u8
        ensures { result ≡ exit_of self }
    {
        match self {
            StartErr::EntropyFault => 14,
            StartErr::NoMemory => 22,
        }
    }
}

impl From<AllocError> for StartErr {
    ghost use Rattle.std.specs.Prelude.{◌≡◌};
    ghost use Rattle.jop_start.specs.declared.start_err.StartErr.TheVariants.{NoMemory};

    ghost from_gives = { λ _ e. e ≡ NoMemory };

    fn from(_error: AllocError) -> StartErr {
        StartErr::NoMemory
    }
}

impl<T: Drop> From<AllocFailed<T>> for StartErr {
    ghost use Rattle.std.specs.Prelude.{◌≡◌};
    ghost use Rattle.jop_start.specs.declared.start_err.StartErr.TheVariants.{NoMemory};

    ghost from_gives = { λ _ e. e ≡ NoMemory };

    fn from(_error: AllocFailed<T>) -> StartErr {
        StartErr::NoMemory
    }
}

impl From<Failed> for StartErr {
    ghost use Rattle.std.specs.Prelude.{◌≡◌};
    ghost use Rattle.jop_start.specs.declared.start_err.StartErr.TheVariants.{EntropyFault};

    ghost from_gives = { λ _ e. e ≡ EntropyFault };

    fn from(_error: Failed) -> StartErr {
        StartErr::EntropyFault
    }
}

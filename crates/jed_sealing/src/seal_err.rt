use jop_outside::Failed;
use std::alloc::{AllocError, AllocFailed};

/// Why nothing was sealed.
#[derive(Clone, Copy, Debug, PartialEq, Eq)]
pub enum SealErr {
    /// The random source failed.
    EntropyFault,
    NoMemory,
}

impl From<AllocError> for SealErr {
    ghost use Rattle.std.specs.Prelude.{◌≡◌};
    ghost use Rattle.jed_sealing.specs.declared.seal_err.SealErr.TheVariants.{NoMemory};

    ghost from_gives = { λ _ e. e ≡ NoMemory };

    fn from(_error: AllocError) -> SealErr {
        SealErr::NoMemory
    }
}

impl<T: Drop> From<AllocFailed<T>> for SealErr {
    ghost use Rattle.std.specs.Prelude.{◌≡◌};
    ghost use Rattle.jed_sealing.specs.declared.seal_err.SealErr.TheVariants.{NoMemory};

    ghost from_gives = { λ _ e. e ≡ NoMemory };

    fn from(_error: AllocFailed<T>) -> SealErr {
        SealErr::NoMemory
    }
}

impl From<Failed> for SealErr {
    ghost use Rattle.std.specs.Prelude.{◌≡◌};
    ghost use Rattle.jed_sealing.specs.declared.seal_err.SealErr.TheVariants.{EntropyFault};

    ghost from_gives = { λ _ e. e ≡ EntropyFault };

    fn from(_failed: Failed) -> SealErr {
        SealErr::EntropyFault
    }
}

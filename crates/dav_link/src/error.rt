use jop_outside::Failed;
use std::alloc::AllocError;

/// Why nothing came over a link.
#[derive(Clone, Copy, Debug, PartialEq, Eq)]
pub enum LinkErr {
    Fault,
    NoMemory,
    /// More bytes were announced than are waited for.
    TooLong,
}

impl From<AllocError> for LinkErr {
    ghost use Rattle.std.specs.Prelude.{◌≡◌};
    ghost use Rattle.dav_link.specs.declared.error.LinkErr.TheVariants.{NoMemory};

    ghost from_gives = { λ _ e. e ≡ NoMemory };

    fn from(_error: AllocError) -> LinkErr {
        LinkErr::NoMemory
    }
}

impl From<Failed> for LinkErr {
    ghost use Rattle.std.specs.Prelude.{◌≡◌};
    ghost use Rattle.dav_link.specs.declared.error.LinkErr.TheVariants.{Fault};

    ghost from_gives = { λ _ e. e ≡ Fault };

    fn from(_error: Failed) -> LinkErr {
        LinkErr::Fault
    }
}

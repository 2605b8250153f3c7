use std::alloc::AllocError;

/// Why a keeper did nothing.
#[derive(Clone, Copy, Debug, PartialEq, Eq)]
pub enum KeeperErr {
    /// It failed, and counts that.
    Fault,
    NoMemory,
}

impl From<AllocError> for KeeperErr {
    ghost use Rattle.std.specs.Prelude.{◌≡◌};
    ghost use Rattle.keeper.specs.declared.keeper_err.KeeperErr.TheVariants.{NoMemory};

    ghost from_gives = { λ _ e. e ≡ NoMemory };

    fn from(_error: AllocError) -> KeeperErr {
        KeeperErr::NoMemory
    }
}

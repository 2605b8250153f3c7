use crate::refusal::Refusal;
use keeper::KeeperErr;
use lease::Seen;
use std::alloc::AllocError;

/// Why a session can't go on.
#[derive(Clone, Copy, Debug, PartialEq, Eq)]
pub enum StepErr {
    /// The lease wasn't renewed in time.
    Lost(Seen),
    /// The target failed at a call.
    TargetFault,
    /// The keeper failed.
    KeeperFault,
    /// It is refused, though nothing has failed.
    Refused(Refusal),
    NoMemory,
}

impl From<AllocError> for StepErr {
    ghost use Rattle.std.specs.Prelude.{◌≡◌};
    ghost use Rattle.conflicts.specs.declared.error.StepErr.TheVariants.{NoMemory};

    ghost from_gives = { λ _ e. e ≡ NoMemory };

    fn from(_error: AllocError) -> StepErr {
        StepErr::NoMemory
    }
}

impl From<KeeperErr> for StepErr {
    ghost use Rattle.std.specs.Prelude.{◌≡◌};
    ghost use Rattle.conflicts.specs.Errors.{step_err};

    ghost from_gives = { λ k e. e ≡ step_err k };

    fn from(error: KeeperErr) -> StepErr {
        match error {
            KeeperErr::Fault => StepErr::KeeperFault,
            KeeperErr::NoMemory => StepErr::NoMemory,
        }
    }
}

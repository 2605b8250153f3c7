ghost use Rattle.std.specs.Prelude.{◌≡◌};

use crate::lock::Lock;
use std::alloc::AllocError;

/// What was seen when a lease was lost: the stamp of its own lock, if it was there; the moment of
/// the listing; and, at a renewal, the end of the lease as it was. All in milliseconds since 1970.
#[derive(Clone, Copy, Debug, PartialEq, Eq)]
pub struct Seen {
    pub own: Option<u64>,
    pub now: u64,
    pub old_end: Option<u64>,
}

/// Why there is no lease.
#[derive(Clone, Copy, Debug, PartialEq, Eq)]
pub enum LeaseErr {
    /// A listing of that moment, in milliseconds since 1970, shows this live lock of another, which
    /// is in the way.
    Busy { lock: Lock, now: u64 },
    /// Its own lock isn't shown in time.
    Lost(Seen),
    /// The target failed at a call that the lease needs.
    TargetFault,
    NoMemory,
}

/// Why a call of the lease's own gave nothing.
#[derive(Clone, Copy, Debug, PartialEq, Eq)]
pub(crate) enum AskErr {
    Fault,
    NoMemory,
}

impl From<AllocError> for AskErr {
    ghost use Rattle.std.specs.Prelude.{◌≡◌};
    ghost use Rattle.lease.specs.declared.error.AskErr.TheVariants.{NoMemory};

    ghost from_gives = { λ _ e. e ≡ NoMemory };

    fn from(_error: AllocError) -> AskErr {
        AskErr::NoMemory
    }
}

impl From<AllocError> for LeaseErr {
    ghost use Rattle.std.specs.Prelude.{◌≡◌};
    ghost use Rattle.lease.specs.declared.error.LeaseErr.TheVariants.{NoMemory};

    ghost from_gives = { λ _ e. e ≡ NoMemory };

    fn from(_error: AllocError) -> LeaseErr {
        LeaseErr::NoMemory
    }
}

impl From<AskErr> for LeaseErr {
    ghost use Rattle.std.specs.Prelude.{◌≡◌};
    ghost use Rattle.lease.specs.Outcomes.{lease_err};

    ghost from_gives = { λ a e. e ≡ lease_err a };

    fn from(error: AskErr) -> LeaseErr {
        match error {
            AskErr::Fault => LeaseErr::TargetFault,
            AskErr::NoMemory => LeaseErr::NoMemory,
        }
    }
}

ghost use Rattle.std.specs.Prelude.{◌≡◌};
ghost use Rattle.sync_session.specs.Syncing.{has_ended_sync};

use conflicts::{Refusal, StepErr, SyncReport};
use keeper::KeeperErr;
use lease::{LeaseErr, Lock, Seen};
use std::alloc::AllocError;

/// Why a sync ended before all was done.
#[derive(Clone, Copy, Debug, PartialEq, Eq)]
pub enum SyncErr {
    /// A listing of that moment, in milliseconds since 1970, shows this live lock of another, which is in the way.
    Busy { lock: Lock, now: u64 },
    /// Its own lock wasn't shown in time, or was renewed too late.
    LeaseLost(Seen),
    /// It was refused under its lease, though nothing has failed.
    Refused(Refusal),
    /// A call failed.
    TargetFault,
    /// The keeper failed.
    KeeperFault,
    NoMemory,
}

/// Whether a session ends with this answer: with every one but out of memory.
pub(crate) fn has_ended(outcome: &Result<SyncReport, SyncErr>) -> bool
    ensures { result ≡ has_ended_sync outcome.now }
{
    !matches!(outcome, Err(SyncErr::NoMemory))
}

impl From<AllocError> for SyncErr {
    ghost use Rattle.std.specs.Prelude.{◌≡◌};
    ghost use Rattle.sync_session.specs.declared.sync_err.SyncErr.TheVariants.{NoMemory};

    ghost from_gives = { λ _ e. e ≡ NoMemory };

    fn from(_error: AllocError) -> SyncErr {
        SyncErr::NoMemory
    }
}

impl From<KeeperErr> for SyncErr {
    ghost use Rattle.std.specs.Prelude.{◌≡◌};
    ghost use Rattle.sync_session.specs.Errors.{of_keeper};

    ghost from_gives = { λ k e. e ≡ of_keeper k };

    fn from(error: KeeperErr) -> SyncErr {
        match error {
            KeeperErr::Fault => SyncErr::KeeperFault,
            KeeperErr::NoMemory => SyncErr::NoMemory,
        }
    }
}

impl From<LeaseErr> for SyncErr {
    ghost use Rattle.std.specs.Prelude.{◌≡◌};
    ghost use Rattle.sync_session.specs.Errors.{of_lease};

    ghost from_gives = { λ l e. e ≡ of_lease l };

    fn from(error: LeaseErr) -> SyncErr {
        match error {
            LeaseErr::Busy { lock, now } => SyncErr::Busy { lock, now },
            LeaseErr::Lost(seen) => SyncErr::LeaseLost(seen),
            LeaseErr::TargetFault => SyncErr::TargetFault,
            LeaseErr::NoMemory => SyncErr::NoMemory,
        }
    }
}

impl From<StepErr> for SyncErr {
    ghost use Rattle.std.specs.Prelude.{◌≡◌};
    ghost use Rattle.sync_session.specs.Errors.{of_step};

    ghost from_gives = { λ s e. e ≡ of_step s };

    fn from(error: StepErr) -> SyncErr {
        match error {
            StepErr::Lost(seen) => SyncErr::LeaseLost(seen),
            StepErr::TargetFault => SyncErr::TargetFault,
            StepErr::KeeperFault => SyncErr::KeeperFault,
            StepErr::Refused(why) => SyncErr::Refused(why),
            StepErr::NoMemory => SyncErr::NoMemory,
        }
    }
}

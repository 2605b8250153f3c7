ghost use Rattle.std.specs.Prelude.{◌≡◌};
ghost use Rattle.sync_run.specs.Sessions.{has_ended};

use conflicts::Refusal;
use lease::{LeaseErr, Lock, Seen};
use std::alloc::AllocError;

/// Why a session ended before its work was done.
#[derive(Clone, Copy, Debug, PartialEq, Eq)]
pub enum SessionErr {
    /// A listing of that moment, in milliseconds since 1970, shows this live lock of another, which
    /// is in the way.
    Busy { lock: Lock, now: u64 },
    /// Its own lock wasn't shown in time, or was renewed too late.
    LeaseLost(Seen),
    /// It was refused under its lease, though nothing has failed.
    Refused(Refusal),
    /// A call failed.
    TargetFault,
    NoMemory,
}

/// Whether a session ends with this answer: with every one but out of memory.
pub(crate) fn has_ended<T>(outcome: &Result<T, SessionErr>) -> bool
    ensures { result ≡ has_ended outcome.now }
{
    !matches!(outcome, Err(SessionErr::NoMemory))
}

impl From<AllocError> for SessionErr {
    ghost use Rattle.std.specs.Prelude.{◌≡◌};
    ghost use Rattle.sync_run.specs.declared.session_err.SessionErr.TheVariants.{NoMemory};

    ghost from_gives = { λ _ e. e ≡ NoMemory };

    fn from(_error: AllocError) -> SessionErr {
        SessionErr::NoMemory
    }
}

impl From<LeaseErr> for SessionErr {
    ghost use Rattle.std.specs.Prelude.{◌≡◌};
    ghost use Rattle.sync_run.specs.Sessions.{session_err_of};

    ghost from_gives = { λ l e. e ≡ session_err_of l };

    fn from(error: LeaseErr) -> SessionErr {
        match error {
            LeaseErr::Busy { lock, now } => SessionErr::Busy { lock, now },
            LeaseErr::Lost(seen) => SessionErr::LeaseLost(seen),
            LeaseErr::TargetFault => SessionErr::TargetFault,
            LeaseErr::NoMemory => SessionErr::NoMemory,
        }
    }
}

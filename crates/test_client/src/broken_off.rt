use conflicts::{Refusal, StepErr};
use keeper::KeeperErr;
use lease::LeaseErr;
use std::alloc::AllocError;

/// Why something that a client was to do gave nothing.
#[derive(Clone, Copy, Debug)]
pub enum BrokenOff {
    /// It was asked for an id that is none, or a text that is no item of its id.
    Words,
    /// The keeper failed outside a session's parts.
    Keeper,
    /// No lease was given.
    Lease,
    /// The target showed no item, while the client has a base of so many.
    Emptied(u64),
    /// A part of the session ended otherwise.
    Step,
    /// The target seals, and no key is known.
    Sealed,
    NoMemory,
}

impl BrokenOff {
    /// Whether the target showed no item while the client has a base of so many.
    pub fn is_emptied(&self, count: u64) -> bool {
        match self {
            BrokenOff::Emptied(bases) => *bases == count,
            _ => false,
        }
    }
}

impl From<KeeperErr> for BrokenOff {
    fn from(error: KeeperErr) -> BrokenOff {
        match error {
            KeeperErr::Fault => BrokenOff::Keeper,
            KeeperErr::NoMemory => BrokenOff::NoMemory,
        }
    }
}

impl From<LeaseErr> for BrokenOff {
    fn from(error: LeaseErr) -> BrokenOff {
        match error {
            LeaseErr::NoMemory => BrokenOff::NoMemory,
            _ => BrokenOff::Lease,
        }
    }
}

impl From<StepErr> for BrokenOff {
    fn from(error: StepErr) -> BrokenOff {
        match error {
            StepErr::NoMemory => BrokenOff::NoMemory,
            StepErr::Refused(Refusal::FailSafe(count)) => BrokenOff::Emptied(count),
            _ => BrokenOff::Step,
        }
    }
}

impl From<AllocError> for BrokenOff {
    fn from(_error: AllocError) -> BrokenOff {
        BrokenOff::NoMemory
    }
}

use keeper::KeeperErr;
use std::alloc::{AllocError, AllocFailed};
use std::io;
use test_client::BrokenOff;

/// Why nothing was measured.
#[derive(Clone, Copy, Debug, PartialEq, Eq)]
pub(crate) enum Trouble {
    Keeper,
    /// No note of this kind can be made.
    Note,
    /// The upload, or what comes before it.
    Client,
    /// The words, the clock, or the output.
    Outside,
    NoMemory,
}

impl From<KeeperErr> for Trouble {
    fn from(_error: KeeperErr) -> Trouble {
        Trouble::Keeper
    }
}

impl From<BrokenOff> for Trouble {
    fn from(_error: BrokenOff) -> Trouble {
        Trouble::Client
    }
}

impl From<io::Error> for Trouble {
    fn from(_error: io::Error) -> Trouble {
        Trouble::Outside
    }
}

impl From<AllocError> for Trouble {
    fn from(_error: AllocError) -> Trouble {
        Trouble::NoMemory
    }
}

impl<T: Drop> From<AllocFailed<T>> for Trouble {
    fn from(_error: AllocFailed<T>) -> Trouble {
        Trouble::NoMemory
    }
}

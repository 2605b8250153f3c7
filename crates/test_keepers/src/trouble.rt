use keeper::KeeperErr;
use keeper_columns::RecordErr;
use std::alloc::AllocError;
use std::io;
use sync_info::InfoErr;

/// Why a test can't go on.
#[derive(Clone, Copy, Debug, PartialEq, Eq)]
pub(crate) enum Trouble {
    /// A keeper refused.
    Keeper,
    /// What a record or an info was to be read from holds none.
    NotRead,
    /// The database refused what another program does.
    Database,
    /// The file, or its folder.
    File,
    NoMemory,
}

impl From<KeeperErr> for Trouble {
    fn from(error: KeeperErr) -> Trouble {
        match error {
            KeeperErr::Fault => Trouble::Keeper,
            KeeperErr::NoMemory => Trouble::NoMemory,
        }
    }
}

impl From<RecordErr> for Trouble {
    fn from(error: RecordErr) -> Trouble {
        match error {
            RecordErr::Bad => Trouble::NotRead,
            RecordErr::NoMemory => Trouble::NoMemory,
        }
    }
}

impl From<InfoErr> for Trouble {
    fn from(error: InfoErr) -> Trouble {
        match error {
            InfoErr::Bad(_) => Trouble::NotRead,
            InfoErr::NoMemory => Trouble::NoMemory,
        }
    }
}

impl From<io::Error> for Trouble {
    fn from(_error: io::Error) -> Trouble {
        Trouble::File
    }
}

impl From<AllocError> for Trouble {
    fn from(_error: AllocError) -> Trouble {
        Trouble::NoMemory
    }
}

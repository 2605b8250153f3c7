use jed_sealing::SealErr;
use jop_base::Id;
use jop_outside::Failed;
use keeper::KeeperErr;
use local_commands::StartCount;
use std::alloc::AllocError;

/// Why a command on keys ended otherwise than well: one word for each cause.
#[derive(Clone, Copy, Debug, PartialEq, Eq)]
pub enum KeysErr {
    /// The keeper failed.
    KeeperFault,
    /// The clock failed.
    ClockFault,
    /// The random source failed.
    EntropyFault,
    /// No row of this id is a resource whose bytes are kept, or no key has this id.
    NotFound(Id),
    /// It isn't one row whose id begins so, but none or several.
    NotOne(StartCount),
    /// The row of this id is sealed, or its bytes are and don't open.
    Sealed(Id),
    /// The record of this key doesn't open under the password.
    BadPassword(Id),
    /// There is no password for this key, or no readable record of it.
    NoKey(Option<Id>),
    NoMemory,
}

impl From<AllocError> for KeysErr {
    ghost use Rattle.std.specs.Prelude.{◌≡◌};
    ghost use Rattle.key_commands.specs.declared.keys_err.KeysErr.TheVariants.{NoMemory};

    ghost from_gives = { λ _ e. e ≡ NoMemory };

    fn from(_error: AllocError) -> KeysErr {
        KeysErr::NoMemory
    }
}

impl From<StartCount> for KeysErr {
    ghost use Rattle.std.specs.Prelude.{◌≡◌};
    ghost use Rattle.key_commands.specs.declared.keys_err.KeysErr.TheVariants.{NotOne};

    ghost from_gives = { λ c e. e ≡ NotOne c };

    fn from(count: StartCount) -> KeysErr {
        KeysErr::NotOne(count)
    }
}

impl From<KeeperErr> for KeysErr {
    ghost use Rattle.std.specs.Prelude.{◌≡◌};
    ghost use Rattle.key_commands.specs.Refusals.{of_keeping};

    ghost from_gives = { λ k e. e ≡ of_keeping k };

    fn from(error: KeeperErr) -> KeysErr {
        match error {
            KeeperErr::Fault => KeysErr::KeeperFault,
            KeeperErr::NoMemory => KeysErr::NoMemory,
        }
    }
}

impl From<SealErr> for KeysErr {
    ghost use Rattle.std.specs.Prelude.{◌≡◌};
    ghost use Rattle.key_commands.specs.Refusals.{of_making};

    ghost from_gives = { λ s e. e ≡ of_making s };

    fn from(error: SealErr) -> KeysErr {
        match error {
            SealErr::EntropyFault => KeysErr::EntropyFault,
            SealErr::NoMemory => KeysErr::NoMemory,
        }
    }
}

/// A failure that is told as this is the clock's: the random source's is told by [`SealErr`].
impl From<Failed> for KeysErr {
    ghost use Rattle.std.specs.Prelude.{◌≡◌};
    ghost use Rattle.key_commands.specs.declared.keys_err.KeysErr.TheVariants.{ClockFault};

    ghost from_gives = { λ _ e. e ≡ ClockFault };

    fn from(_failed: Failed) -> KeysErr {
        KeysErr::ClockFault
    }
}

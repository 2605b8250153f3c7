use jed_format::JedErr;
use jed_sealing::SealErr;
use jop_base::Id;
use std::alloc::AllocError;

/// Why a key, or an item under keys, wasn't made, sealed or opened.
#[derive(Clone, Copy, Debug, PartialEq, Eq)]
pub enum KeyErr {
    /// The key of this id isn't here; none if no id names it.
    NoKey(Option<Id>),
    /// The record of this key doesn't open under the password.
    BadPassword(Id),
    /// The random source failed.
    EntropyFault,
    /// The cipher text isn't readable, or doesn't open. Never for want of memory.
    Jed(JedErr),
    /// What is inside is no item of the same id, or is sealed itself.
    BadItem,
    NoMemory,
}

impl From<AllocError> for KeyErr {
    ghost use Rattle.std.specs.Prelude.{◌≡◌};
    ghost use Rattle.master_keys.specs.declared.key_err.KeyErr.TheVariants.{NoMemory};

    ghost from_gives = { λ _ e. e ≡ NoMemory };

    fn from(_error: AllocError) -> KeyErr {
        KeyErr::NoMemory
    }
}

impl From<JedErr> for KeyErr {
    ghost use Rattle.std.specs.Prelude.{◌≡◌};
    ghost use Rattle.master_keys.specs.Refusing.{of_jed};

    ghost from_gives = { λ error e. e ≡ of_jed error };

    fn from(error: JedErr) -> KeyErr {
        match error {
            JedErr::NoMemory => KeyErr::NoMemory,
            JedErr::NotJed { at } => KeyErr::Jed(JedErr::NotJed { at }),
            JedErr::BadChunk { n } => KeyErr::Jed(JedErr::BadChunk { n }),
            JedErr::UnsupportedMethod(method) => KeyErr::Jed(JedErr::UnsupportedMethod(method)),
            JedErr::UnsupportedMode { n } => KeyErr::Jed(JedErr::UnsupportedMode { n }),
            JedErr::BadTag { n } => KeyErr::Jed(JedErr::BadTag { n }),
        }
    }
}

impl From<SealErr> for KeyErr {
    ghost use Rattle.std.specs.Prelude.{◌≡◌};
    ghost use Rattle.master_keys.specs.Refusing.{of_seal};

    ghost from_gives = { λ error e. e ≡ of_seal error };

    fn from(error: SealErr) -> KeyErr {
        match error {
            SealErr::EntropyFault => KeyErr::EntropyFault,
            SealErr::NoMemory => KeyErr::NoMemory,
        }
    }
}

ghost use Rattle.std.specs.Prelude.{◌≡◌};
ghost use Rattle.jed_format.specs.declared.jed_err.JedErr.TheVariants.{NoMemory};

use std::alloc::{AllocError, AllocFailed};

/// Why a sealed text wasn't read or opened. Chunks are numbered from 1.
#[derive(Clone, Copy, Debug, PartialEq, Eq)]
pub enum JedErr {
    /// The field of the header that begins at this byte isn't there, or isn't as it must be.
    NotJed { at: u64 },
    /// The length, or the object, of this chunk isn't as it must be, or what it opens to.
    BadChunk { n: u64 },
    /// The header names a method that isn't read.
    UnsupportedMethod(u8),
    /// The mode of this chunk isn't `ccm`.
    UnsupportedMode { n: u64 },
    /// The tag of this chunk isn't that of its text under the password.
    BadTag { n: u64 },
    NoMemory,
}

impl From<AllocError> for JedErr {
    ghost from_gives = { λ _ e. e ≡ NoMemory };

    fn from(_e: AllocError) -> JedErr {
        JedErr::NoMemory
    }
}

impl<T: Drop> From<AllocFailed<T>> for JedErr {
    ghost from_gives = { λ _ e. e ≡ NoMemory };

    fn from(_e: AllocFailed<T>) -> JedErr {
        JedErr::NoMemory
    }
}

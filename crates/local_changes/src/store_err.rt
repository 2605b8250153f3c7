use jop_base::Id;
use std::alloc::AllocError;

/// Why a change isn't made.
#[derive(Clone, Copy, Debug, PartialEq, Eq)]
pub enum StoreErr {
    /// There is no row of this id, or it is of another kind.
    NotFound(Id),
    /// The row of this id is sealed.
    Sealed(Id),
    /// The note of this id was last changed at the end of the year 9999.
    TimeEnd(Id),
    /// Notes or notebooks are in the notebook of this id.
    NotEmpty(Id),
    /// The text of the item has this many bytes, more than [`crate::ITEM_LIMIT`].
    TooLarge(u64),
    NoMemory,
}

impl From<AllocError> for StoreErr {
    ghost use Rattle.std.specs.Prelude.{◌≡◌};
    ghost use Rattle.local_changes.specs.declared.store_err.StoreErr.TheVariants.{NoMemory};

    ghost from_gives = { λ _ e. e ≡ NoMemory };

    fn from(_error: AllocError) -> StoreErr {
        StoreErr::NoMemory
    }
}

use crate::start_count::StartCount;
use jop_base::Id;
use keeper::KeeperErr;
use local_changes::StoreErr;
use std::alloc::AllocError;

/// Why a command ended otherwise than well: one word for each cause. Which of them a command can give
/// follows from its plan.
#[derive(Clone, Copy, Debug, PartialEq, Eq)]
pub enum LocalErr {
    /// The keeper failed.
    KeeperFault,
    /// The input failed.
    SourceFault,
    /// The clock failed.
    ClockFault,
    /// The random source failed.
    EntropyFault,
    /// No row of this id is of the kind that is wanted.
    NotFound(Id),
    /// It isn't one row whose id begins so, but none or several.
    NotOne(StartCount),
    /// The row of this id is sealed.
    Sealed(Id),
    /// The note of this id was last changed at [`jop_base::MAX_TIME`].
    TimeEnd(Id),
    /// Notes or notebooks are in the notebook of this id.
    NotEmpty(Id),
    /// The notebook of this id would come into itself, or below itself.
    BelowItself(Id),
    /// There is no conflict note of this number.
    NoConflict(u64),
    /// The input is past its limit, and this is the limit and one; or the item's text has this many
    /// bytes, more than [`local_changes::ITEM_LIMIT`].
    TooLarge(u64),
    /// The input isn't UTF-8.
    NotText,
    NoMemory,
}

impl From<AllocError> for LocalErr {
    ghost use Rattle.std.specs.Prelude.{◌≡◌};
    ghost use Rattle.local_commands.specs.declared.local_err.LocalErr.TheVariants.{NoMemory};

    ghost from_gives = { λ _ e. e ≡ NoMemory };

    fn from(_error: AllocError) -> LocalErr {
        LocalErr::NoMemory
    }
}

impl From<StartCount> for LocalErr {
    ghost use Rattle.std.specs.Prelude.{◌≡◌};
    ghost use Rattle.local_commands.specs.declared.local_err.LocalErr.TheVariants.{NotOne};

    ghost from_gives = { λ c e. e ≡ NotOne c };

    fn from(count: StartCount) -> LocalErr {
        LocalErr::NotOne(count)
    }
}

impl From<KeeperErr> for LocalErr {
    ghost use Rattle.std.specs.Prelude.{◌≡◌};
    ghost use Rattle.local_commands.specs.Refusals.{keeper_refusal};

    ghost from_gives = { λ k e. e ≡ keeper_refusal k };

    fn from(error: KeeperErr) -> LocalErr {
        match error {
            KeeperErr::Fault => LocalErr::KeeperFault,
            KeeperErr::NoMemory => LocalErr::NoMemory,
        }
    }
}

impl From<StoreErr> for LocalErr {
    ghost use Rattle.std.specs.Prelude.{◌≡◌};
    ghost use Rattle.local_commands.specs.Refusals.{store_refusal};

    ghost from_gives = { λ s e. e ≡ store_refusal s };

    fn from(error: StoreErr) -> LocalErr {
        match error {
            StoreErr::NotFound(id) => LocalErr::NotFound(id),
            StoreErr::Sealed(id) => LocalErr::Sealed(id),
            StoreErr::TimeEnd(id) => LocalErr::TimeEnd(id),
            StoreErr::NotEmpty(id) => LocalErr::NotEmpty(id),
            StoreErr::TooLarge(len) => LocalErr::TooLarge(len),
            StoreErr::NoMemory => LocalErr::NoMemory,
        }
    }
}

ghost use Rattle.std.specs.Prelude.{◌≡◌};
ghost use Rattle.item_text.specs.declared.bad_item.ItemErr.TheVariants.{NoMemory, Bad};

use std::alloc::{AllocError, AllocFailed};

/// Why a text is no item's.
#[derive(Clone, Copy, Debug, PartialEq, Eq)]
pub enum BadWhy {
    /// The bytes aren't UTF-8.
    NotText,
    /// A property line has no colon.
    NoColon,
    /// No pair has the key `type_`.
    NoType,
    /// The topmost `type_` isn't one to three decimal digits.
    TypeValue,
}

/// What is wrong with a text, and in which line. Lines are numbered from 1; 0 stands for the whole text.
#[derive(Clone, Copy, Debug, PartialEq, Eq)]
pub struct BadItem {
    pub line: u64,
    pub why: BadWhy,
}

/// Why no item was read.
#[derive(Clone, Copy, Debug, PartialEq, Eq)]
pub enum ItemErr {
    NoMemory,
    Bad(BadItem),
}

impl From<BadItem> for ItemErr {
    ghost from_gives = { λ bad e. e ≡ Bad bad };

    fn from(bad: BadItem) -> ItemErr {
        ItemErr::Bad(bad)
    }
}

impl From<AllocError> for ItemErr {
    ghost from_gives = { λ _ e. e ≡ NoMemory };

    fn from(_e: AllocError) -> ItemErr {
        ItemErr::NoMemory
    }
}

impl<T: Drop> From<AllocFailed<T>> for ItemErr {
    ghost from_gives = { λ _ e. e ≡ NoMemory };

    fn from(_e: AllocFailed<T>) -> ItemErr {
        ItemErr::NoMemory
    }
}

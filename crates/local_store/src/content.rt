ghost use Rattle.std.specs.Prelude.{◌≡◌};
ghost use Rattle.local_store.specs.Rows.{item_of};

use item_text::Item;
use jop_base::Copied;
use std::alloc::{AllocError, Global};

/// An item as a client has it: readable, or sealed in a cipher text of which the client has no key.
#[derive(Debug, Drop)]
pub enum Content {
    Plain(Item),
    Sealed(Item),
}

impl Content {
    /// The item, whichever it is. Of a sealed one some pairs are readable, its id and kind among them.
    pub fn item(&self) -> &Item
        ensures { result.now ≡ item_of self.now }
    {
        match self {
            Content::Plain(item) => item,
            Content::Sealed(item) => item,
        }
    }
}

impl Copied for Content {
    fn copy(&self, alloc: Global) -> Result<Content, AllocError> {
        match self {
            Content::Plain(item) => Ok(Content::Plain(item.copy(alloc)?)),
            Content::Sealed(item) => Ok(Content::Sealed(item.copy(alloc)?)),
        }
    }
}

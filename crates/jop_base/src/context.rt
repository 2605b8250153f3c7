ghost use Rattle.std.specs.Prelude.{◌≡◌, []};

use crate::copied::Copied;
use crate::id::Id;
use crate::seq::Seq;
use std::alloc::{AllocError, Global};

/// How far a client has read a target: all that was written before this moment, in milliseconds since 1970, and of what
/// was written at the moment itself the items of these ids, in rising order.
#[derive(Debug, PartialEq, Eq, Drop)]
pub struct Context {
    pub moment: u64,
    pub seen: Seq<Id>,
}

impl Context {
    /// Nothing has been read yet.
    pub fn new(alloc: Global) -> Context
        ensures { result ≡ record { moment = 0; seen = [] } }
    {
        Context {
            moment: 0,
            seen: Seq::new(alloc),
        }
    }
}

impl Copied for Context {
    fn copy(&self, alloc: Global) -> Result<Context, AllocError> {
        Ok(Context {
            moment: self.moment,
            seen: self.seen.copy(alloc)?,
        })
    }
}

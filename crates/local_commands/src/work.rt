ghost use Rattle.std.specs.Prelude.{◌≡◌, IfOk};
ghost use Rattle.local_commands.specs.Running.{one_change, only_text};

use crate::act::Act;
use jop_base::{Bytes, Seq};
use local_store::Change;
use std::alloc::{AllocError, Global};

/// What a command does to the keeper, and what it prints then.
#[derive(Debug, Drop)]
pub(crate) struct Work {
    pub(crate) acts: Seq<Act>,
    pub(crate) text: Bytes,
}

/// Nothing is done, and this is printed.
pub(crate) fn only_text(alloc: Global, text: Bytes) -> Work
    ensures { result ≡ only_text text }
{
    Work {
        acts: Seq::new(alloc),
        text,
    }
}

/// One change is made, and this is printed.
pub(crate) fn one_change(alloc: Global, change: Change, text: Bytes) -> Result<Work, AllocError>
    ensures { IfOk result (λ work. work ≡ one_change change text) }
{
    let mut acts = Seq::new(alloc);
    acts.push(Act::MakeChange(change))?;
    Ok(Work { acts, text })
}

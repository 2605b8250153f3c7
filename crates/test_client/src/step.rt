ghost use Rattle.std.specs.Prelude.{IfOk};
ghost use Rattle.local_store.specs.Sound.{IsAllowed, IsContentOf};

use crate::broken_off::BrokenOff;
use crate::files::bytes_of;
use conflicts::content_in;
use jop_base::{Context, Id, Seq};
use local_store::{Change, Content};
use std::alloc::{AllocError, Global};

/// What a client does beside its sessions.
#[derive(Clone, Copy)]
pub enum Step {
    /// It reads the file of this id, which holds this.
    Take(&'static str, &'static str),
    /// Its user saves the item of this id.
    Save(&'static str, &'static str),
    /// Its user removes the item of this id.
    Remove(&'static str),
    /// It has read the target up to this moment, in milliseconds since 1970, and of that moment the
    /// file of this id.
    Read(u64, &'static str),
}

/// The id of these digits.
pub fn id_of(digits: &str) -> Result<Id, BrokenOff> {
    Id::read(digits.as_bytes()).ok_or(BrokenOff::Words)
}

fn content_of(alloc: Global, id: &Id, text: &str) -> Result<Content, BrokenOff>
    ensures { IfOk result (IsContentOf id.now) }
{
    match content_in(alloc, id, text.as_bytes())? {
        Some(content) => Ok(content),
        None => Err(BrokenOff::Words),
    }
}

fn taken(alloc: Global, id: Id, text: &str) -> Result<Change, BrokenOff>
    ensures { IfOk result (λ change. IsAllowed change) }
{
    let content = content_of(alloc, &id, text)?;
    let bytes = bytes_of(alloc, text)?;
    Ok(Change::Taken(id, bytes, content))
}

fn saved(alloc: Global, id: Id, text: &str) -> Result<Change, BrokenOff>
    ensures { IfOk result (λ change. IsAllowed change) }
{
    match content_of(alloc, &id, text)? {
        Content::Plain(item) => Ok(Change::Saved(id, item)),
        Content::Sealed(_) => Err(BrokenOff::Words),
    }
}

fn context_of(alloc: Global, moment: u64, id: Id) -> Result<Context, AllocError> {
    let mut seen = Seq::new(alloc);
    seen.push(id)?;
    Ok(Context { moment, seen })
}

/// The change of a step.
pub(crate) fn change_of(alloc: Global, step: Step) -> Result<Change, BrokenOff>
    ensures { IfOk result (λ change. IsAllowed change) }
{
    match step {
        Step::Take(digits, text) => taken(alloc, id_of(digits)?, text),
        Step::Save(digits, text) => saved(alloc, id_of(digits)?, text),
        Step::Remove(digits) => Ok(Change::Removed(id_of(digits)?)),
        Step::Read(moment, digits) => {
            Ok(Change::ContextIs(context_of(alloc, moment, id_of(digits)?)?))
        }
    }
}

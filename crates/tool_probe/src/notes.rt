//! Notes of 1 KiB, by their numbers.

ghost use Rattle.std.specs.Prelude.{IfOk};
ghost use Rattle.local_store.specs.Sound.{IsAllowed, IsContentOf};

use crate::trouble::Trouble;
use conflicts::content_in;
use jop_base::Id;
use local_store::{Change, Content};
use std::alloc::{AllocError, Global};

/// The text of a note of this number, whose body has 900 letters.
fn text_of(alloc: Global, number: u64) -> Result<String, AllocError> {
    let mut text = format!(in alloc; "Note {number}\n\n")?;
    for _ in 0..90 {
        text.push_str("nine words")?;
    }
    let end = format!(in alloc; "\n\nid: {number:032x}\ntype_: 1")?;
    text.push_str(end.as_str())?;
    Ok(text)
}

fn id_of(alloc: Global, number: u64) -> Result<Id, Trouble> {
    let digits = format!(in alloc; "{number:032x}")?;
    match Id::read(digits.as_bytes()) {
        Some(id) => Ok(id),
        None => Err(Trouble::Note),
    }
}

fn content(alloc: Global, id: &Id, number: u64) -> Result<Content, Trouble>
    ensures { IfOk result (IsContentOf id.now) }
{
    let text = text_of(alloc, number)?;
    match content_in(alloc, id, text.as_bytes())? {
        Some(content) => Ok(content),
        None => Err(Trouble::Note),
    }
}

/// The change that saves the note of this number.
pub(crate) fn note_saved(alloc: Global, number: u64) -> Result<Change, Trouble>
    ensures { IfOk result (λ change. IsAllowed change) }
{
    let id = id_of(alloc, number)?;
    match content(alloc, &id, number)? {
        Content::Plain(item) => Ok(Change::Saved(id, item)),
        Content::Sealed(_) => Err(Trouble::Note),
    }
}

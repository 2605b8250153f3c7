ghost use Rattle.std.specs.Prelude.{◌≡◌, IfOk};
ghost use Rattle.law_licences.specs.Copies.{title_or_empty};
ghost use Rattle.local_commands.specs.Lines.{id_line};

use item_text::Item;
use jop_base::{Bytes, Id};
use std::alloc::{AllocError, Global};

/// The title of an item, which is empty if there is none.
pub(crate) fn title_of(item: &Item) -> &str
    ensures { result.now ≡ title_or_empty item.now }
{
    match &item.title {
        Some(title) => title.as_str(),
        None => "",
    }
}

/// An id on a line of its own.
pub fn id_line(alloc: Global, id: &Id) -> Result<Bytes, AllocError>
    ensures { IfOk result (λ line. line ≡ id_line id.now) }
{
    let mut line = Bytes::new(alloc);
    line.append(id.as_str().as_bytes())?;
    line.append(b"\n")?;
    Ok(line)
}

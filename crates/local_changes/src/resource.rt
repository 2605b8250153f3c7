ghost use Rattle.std.specs.Prelude.{◌≡◌, ◌≤◌, IfOk};
ghost use Rattle.jop_base.specs.Times.{last_time};
ghost use Rattle.item_kinds.specs.Made.{IsLine, resource};
ghost use Rattle.item_text.specs.Lines.{trimmed};
ghost use Rattle.local_changes.specs.Makers.{new_resource};
ghost use Rattle.local_store.specs.Sound.{IsAllowed};

use item_kinds::resource_item;
use jop_base::{Id, Text};
use local_store::Change;
use std::alloc::{AllocError, Global};

/// A new resource of `len` bytes, whose title is its name.
pub fn new_resource(
    alloc: Global,
    id: Id,
    name: Text,
    mime: Text,
    len: u64,
    now: u64,
) -> Result<Change, AllocError>
    requires name { IsLine name }
    requires mime { IsLine mime }
    requires trimmed { trimmed mime ≡ mime }
    requires time { now ≤ last_time }
    ensures change { IfOk result (λ change. change ≡ new_resource id name mime len now) }
    ensures allowed { IfOk result (λ change. IsAllowed change) }
{
    let item = resource_item(alloc, &id, name, mime, len, now)?;
    Ok(Change::Saved(id, item))
}

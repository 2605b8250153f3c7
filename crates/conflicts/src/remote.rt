ghost use Rattle.std.specs.Prelude.{◌≡◌, IfOk, IfSome, Some, option_map};
ghost use Rattle.conflicts.specs.Remotes.{content_in_file};
ghost use Rattle.item_text.specs.Valid.{IsItem};
ghost use Rattle.jop_base.specs.Id.{IsIdText};
ghost use Rattle.law_licences.specs.Items.{content_without_keys, if_of};
ghost use Rattle.local_store.specs.Sound.{IsContentOf};

use crate::folder::says;
use item_text::{Item, ItemErr, read_item};
use jop_base::Id;
use local_store::Content;
use std::alloc::{AllocError, Global};

/// An item as a client without keys has it.
fn content_without_keys(item: Item) -> Content
    ensures { result ≡ content_without_keys item }
{
    if says(&item, b"encryption_applied", b"1") {
        Content::Sealed(item)
    } else {
        Content::Plain(item)
    }
}

/// What a file of these bytes holds. None exactly if it is no item text of this id.
pub fn content_in(alloc: Global, id: &Id, bytes: &[u8]) -> Result<Option<Content>, AllocError>
    ensures content { IfOk result (λ content. content ≡ content_in_file id.now bytes.now) }
    ensures sound { IfOk result (λ content. IfSome content (IsContentOf id.now)) }
{
    id.prove_valid();
    match read_item(alloc, bytes) {
        Ok(item) => Ok(of_id(id, item)),
        Err(ItemErr::Bad(_)) => Ok(None),
        Err(ItemErr::NoMemory) => Err(AllocError),
    }
}

/// The item's content, if it has this id.
fn of_id(id: &Id, item: Item) -> Option<Content>
    requires id { IsIdText id.now }
    requires valid { IsItem item }
    ensures content { result ≡ option_map content_without_keys (if_of id.now (Some item)) }
    ensures sound { IfSome result (IsContentOf id.now) }
{
    if says(&item, b"id", id.as_str().as_bytes()) {
        Some(content_without_keys(item))
    } else {
        None
    }
}

ghost use Rattle.std.specs.Prelude.{◌≡◌, IfOk};

use crate::content::Content;
use item_text::Item;
use jop_base::{Bytes, ClientId, Context, Copied, Id};
use std::alloc::{AllocError, Global};
use sync_info::Info;

/// What may be done to a client's tables. A change whose row isn't there changes nothing.
#[derive(Debug, Drop)]
pub enum Change {
    /// The client has this id from now on.
    Named(ClientId),
    /// The item was made or edited here.
    Saved(Id, Item),
    /// The item was removed here. If it was synced, its file is to be deleted.
    Removed(Id),
    /// The item was uploaded as these bytes.
    Uploaded(Id, Bytes),
    /// The file was deleted on the target.
    Dropped(Id),
    /// The file held these bytes, which read as this content.
    Taken(Id, Bytes, Content),
    /// The file of a pending row held something else, or was gone. The flag says whether the row's own text becomes a
    /// conflict note.
    Conflict(Id, Option<(Bytes, Content)>, bool),
    /// The row's folder is gone on the target, and its own text becomes a conflict note.
    Moved(Id),
    /// The file is gone on the target.
    Gone(Id),
    /// A sealed row was opened, and holds this item.
    Opened(Id, Item),
    /// The user has done with the conflict note of this number.
    Cleared(u64),
    InfoIs(Info),
    ContextIs(Context),
}

/// An equal remote content with its bytes.
fn copy_remote(
    alloc: Global,
    remote: &Option<(Bytes, Content)>,
) -> Result<Option<(Bytes, Content)>, AllocError>
    ensures { IfOk result (λ copy. copy ≡ remote.now) }
{
    match remote {
        Some((bytes, content)) => Ok(Some((bytes.copy(alloc)?, content.copy(alloc)?))),
        None => Ok(None),
    }
}

impl Copied for Change {
    fn copy(&self, alloc: Global) -> Result<Change, AllocError> {
        match self {
            Change::Named(client) => Ok(Change::Named(*client)),
            Change::Saved(id, item) => Ok(Change::Saved(*id, item.copy(alloc)?)),
            Change::Removed(id) => Ok(Change::Removed(*id)),
            Change::Uploaded(id, bytes) => Ok(Change::Uploaded(*id, bytes.copy(alloc)?)),
            Change::Dropped(id) => Ok(Change::Dropped(*id)),
            Change::Taken(id, bytes, content) => {
                Ok(Change::Taken(*id, bytes.copy(alloc)?, content.copy(alloc)?))
            }
            Change::Conflict(id, remote, copies) => {
                Ok(Change::Conflict(*id, copy_remote(alloc, remote)?, *copies))
            }
            Change::Moved(id) => Ok(Change::Moved(*id)),
            Change::Gone(id) => Ok(Change::Gone(*id)),
            Change::Opened(id, item) => Ok(Change::Opened(*id, item.copy(alloc)?)),
            Change::Cleared(number) => Ok(Change::Cleared(*number)),
            Change::InfoIs(info) => Ok(Change::InfoIs(info.copy(alloc)?)),
            Change::ContextIs(context) => Ok(Change::ContextIs(context.copy(alloc)?)),
        }
    }
}

ghost use Rattle.std.specs.Prelude.{codes};
ghost use Rattle.item_kinds.specs.Kinds.{GivesId};

use item_text::{Item, prop};
use jop_base::Id;

fn id_at(item: &Item, key: &[u8]) -> Option<Id>
    ensures { GivesId key.now item.now.props result }
{
    Id::read(prop(item, key)?.as_slice())
}

/// The item's own id, if `id` is one.
pub fn id_of(item: &Item) -> Option<Id>
    ensures { GivesId (codes "id") item.now.props result }
{
    id_at(item, b"id")
}

/// The id of the folder that the item is in, if `parent_id` is one.
pub fn parent_of(item: &Item) -> Option<Id>
    ensures { GivesId (codes "parent_id") item.now.props result }
{
    id_at(item, b"parent_id")
}

/// The id of the note that bears a tag, if `note_id` is one.
pub fn note_of(item: &Item) -> Option<Id>
    ensures { GivesId (codes "note_id") item.now.props result }
{
    id_at(item, b"note_id")
}

/// The id of the tag that a note bears, if `tag_id` is one.
pub fn tag_of(item: &Item) -> Option<Id>
    ensures { GivesId (codes "tag_id") item.now.props result }
{
    id_at(item, b"tag_id")
}

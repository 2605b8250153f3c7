ghost use Rattle.std.specs.Prelude.{◌≡◌, IsSome};
ghost use Rattle.item_text.specs.Valid.{IsItem};
ghost use Rattle.item_kinds.specs.Kinds.{type_number, IsKind};

use crate::number::read_number;
use item_text::{Item, prop};

/// The number in `type_`, which says what an item is. Numbers without a name are kept.
#[derive(Clone, Copy, Debug, PartialEq, Eq)]
pub struct Kind(pub u16);

impl Kind {
    pub const NOTE: Kind = Kind(1);

    pub const FOLDER: Kind = Kind(2);

    pub const RESOURCE: Kind = Kind(4);

    pub const TAG: Kind = Kind(5);

    pub const NOTE_TAG: Kind = Kind(6);

    pub const MASTER_KEY: Kind = Kind(9);

    pub const REVISION: Kind = Kind(13);
}

/// The number that one to three digits write.
#[tactic(auto, unfolding(item_text::specs::Valid::is_type_value))]
fn type_number(value: &[u8]) -> Option<u16>
    ensures { result ≡ type_number value.now }
{
    if value.len() > 3 {
        return None;
    }
    Some(read_number(value)? as u16)
}

/// The kind of the item. None if no pair has the key `type_`, and if the topmost isn't one to three digits.
pub fn kind_of(item: &Item) -> Option<Kind>
    ensures kind { IsKind item.now.props result }
    ensures valid { IsItem item.now → IsSome result }
{
    let number = type_number(prop(item, b"type_")?.as_slice())?;
    Some(Kind(number))
}

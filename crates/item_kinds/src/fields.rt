ghost use Rattle.std.specs.Prelude.{◌≡◌, ◌↔◌, IsTrue, Some, codes};
ghost use Rattle.item_text.specs.Props.{value_of};
ghost use Rattle.item_kinds.specs.Kinds.{IsUpdated};

use crate::time::read_time;
use item_text::{Item, prop};

/// When the item was last changed, in milliseconds since the beginning of 1970. 0 if `updated_time` is no time.
pub fn updated_of(item: &Item) -> u64
    ensures { IsUpdated item.now.props result }
{
    match prop(item, b"updated_time") {
        Some(value) => read_time(value.as_slice()).unwrap_or(0),
        None => 0,
    }
}

/// Whether title, body and other pairs of the item are sealed in its cipher text.
pub fn is_sealed(item: &Item) -> bool
    ensures { IsTrue result
        ↔ (value_of (codes "encryption_applied") item.now.props ≡ Some (codes "1")) }
{
    match prop(item, b"encryption_applied") {
        Some(value) => value.as_str() == "1",
        None => false,
    }
}

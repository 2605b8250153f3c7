ghost use Rattle.std.specs.Prelude.{◌≡◌, IsTrue};
ghost use Rattle.jop_base.specs.Keyed.{IsSorted};

use jop_base::{Key, Keyed};

/// Whether the items stand in the order of their keys, each key once.
pub(crate) fn are_in_order<T: Keyed>(items: &[T]) -> bool
    ensures sorted { IsTrue result → IsSorted T.key items.now }
    ensures unsorted { IsSorted T.key items.now → IsTrue result }
{
    let mut last: Option<T::Key> = None;
    for item in items {
        let key = item.key();
        if let Some(last) = &last
            && !last.compare(&key).is_lt()
        {
            return false;
        }
        last = Some(key);
    }
    true
}

ghost use Rattle.std.specs.Prelude.{IfOk};
ghost use Rattle.delta.specs.Order.{IsInOrder, IsSetOf};

use std::alloc::{AllocError, Global};
use std::collections::BTreeSet;

/// A set of just these items.
pub(crate) fn set_of<T: Ord + Copy>(alloc: Global, items: &[T]) -> Result<BTreeSet<T>, AllocError>
    ensures { IfOk result (IsSetOf T.cmp items.now) }
{
    let mut set = BTreeSet::new(alloc);
    for item in items {
        set.insert(*item)?;
    }
    Ok(set)
}

/// The items in rising order, each once.
pub(crate) fn in_order<T: Ord + Copy>(alloc: Global, items: &[T]) -> Result<Vec<T>, AllocError>
    ensures { IfOk result (λ rising. IsInOrder T.cmp items.now rising.items) }
{
    let mut set = set_of(alloc, items)?;
    let mut rising = Vec::new(alloc);
    while let Some(item) = set.pop_first() {
        rising.push(item)?;
    }
    Ok(rising)
}

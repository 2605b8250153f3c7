ghost use Rattle.std.specs.Prelude.{◌≡◌, ◌++◌, ◌∷◌, [], List, OnOk, OnErr};
ghost use Rattle.client.specs.Sites.{IfLast};
ghost use Rattle.local_store.specs.Changing.{after};
ghost use Rattle.local_store.specs.Sound.{IsAllowed, IsSound};
ghost use Rattle.local_store.specs.declared.change.Change.{Change};

use local_store::{Changes, Tables};
use std::alloc::{AllocError, Global};

/// Makes the last of these changes in the tables or, out of memory, nothing.
pub(crate) fn apply_last(
    alloc: Global,
    tables: &mut Tables,
    made: &Changes,
) -> Result<(), AllocError>
    requires { (before : List Change) × (change : Change)
        × (made.now.changes ≡ before ++ change ∷ []) }
    ensures ok { IfLast made.now.changes (λ change.
        OnOk result (tables.new ≡ after tables.old change)) }
    ensures err { OnErr result (tables.new ≡ tables.old) }
    ensures sound { IfLast made.now.changes (λ change.
        IsSound tables.old → IsAllowed change → IsSound tables.new) }
{
    match made.as_slice().last() {
        Some(change) => tables.apply(alloc, change),
        None => unreachable!(),
    }
}

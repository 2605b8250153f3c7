ghost use Rattle.std.specs.Prelude.{IfOk};
ghost use Rattle.local_changes.specs.Answers.{IsDueOrMemory};
ghost use Rattle.local_changes.specs.Saving.{saved_within};
ghost use Rattle.local_store.specs.Sound.{IsAllowed};
ghost use Rattle.local_store.specs.declared.change.Change.TheVariants.{Saved};

use crate::store_err::StoreErr;
use item_text::{Item, write_item};
use jop_base::Id;
use local_store::Change;
use std::alloc::Global;

/// The most bytes of the text of an item that is saved: 2 MiB.
pub const ITEM_LIMIT: u64 = 2_097_152;

/// The change that saves an item, unless its text is too long.
#[tactic(auto, using(crate::proofs::Unsealed::allowed_valid))]
pub(crate) fn saved_within(alloc: Global, id: Id, item: Item) -> Result<Change, StoreErr>
    requires { IsAllowed (Saved id item) }
    ensures answer { IsDueOrMemory (saved_within id item) result }
    ensures allowed { IfOk result (λ change. IsAllowed change) }
{
    let len = write_item(alloc, &item)?.len() as u64;
    if len > ITEM_LIMIT {
        return Err(StoreErr::TooLarge(len));
    }
    Ok(Change::Saved(id, item))
}

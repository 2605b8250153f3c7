ghost use Rattle.std.specs.Prelude.{◌≡◌, [], IfOk, IsTrue, IsFalse};
ghost use Rattle.std.specs.Option.{option_copied};
ghost use Rattle.delta.specs.Sets.{IsRecord};
ghost use Rattle.delta.specs.Tombs.{recorded_by, recorded_in};

use crate::order::set_of;
use jop_base::{Id, Path};
use jop_target::Listing;
use std::alloc::{AllocError, Global};
use std::collections::BTreeSet;

/// The ids whose deletion a listing records.
#[tactic(auto, unfolding(crate::specs::Tombs::recorded_in))]
fn recorded_in(alloc: Global, tombs: &Listing) -> Result<Vec<Id>, AllocError>
    ensures { IfOk result (λ ids. ids.items ≡ recorded_in tombs.entry.now.entries) }
{
    let mut ids = Vec::new(alloc);
    for entry in tombs.entries.as_slice() {
        if let Path::Tomb(id) = entry.path {
            ids.push(id)?;
        }
    }
    Ok(ids)
}

/// Those ids as a set, where deletions are recorded.
pub(crate) fn record_of(
    alloc: Global,
    tombs: Option<&Listing>,
) -> Result<Option<BTreeSet<Id>>, AllocError>
    ensures { IfOk result (IsRecord (option_copied tombs.entry)) }
{
    match tombs {
        None => Ok(None),
        Some(tombs) => {
            let ids = recorded_in(alloc, tombs)?;
            let set = set_of(alloc, &ids)?;
            Ok(Some(set))
        }
    }
}

/// Whether a listing records a deletion.
#[tactic(auto, unfolding(crate::specs::Tombs::recorded_in))]
fn shows_tombs(tombs: &Listing) -> bool
    ensures none { IsFalse result → recorded_in tombs.entry.now.entries ≡ [] }
    ensures some { IsTrue result → recorded_in tombs.entry.now.entries ≡ [] → ⊥ }
{
    for entry in tombs.entries.as_slice() {
        if let Path::Tomb(_) = entry.path {
            return true;
        }
    }
    false
}

/// Whether deletions are recorded, and there is one.
pub(crate) fn records_any(tombs: Option<&Listing>) -> bool
    ensures none { IsFalse result → recorded_by (option_copied tombs.entry) ≡ [] }
    ensures some { IsTrue result → recorded_by (option_copied tombs.entry) ≡ [] → ⊥ }
{
    match tombs {
        None => false,
        Some(tombs) => shows_tombs(tombs),
    }
}

ghost use Rattle.std.specs.Prelude.{◌≡◌, [], IsTrue, IsFalse};
ghost use Rattle.std.specs.Option.{option_copied};
ghost use Rattle.delta.specs.Marks.{marks_of};
ghost use Rattle.delta.specs.Page.{fail_safe};

use crate::tomb::records_any;
use jop_base::{Id, Path, Seq};
use jop_target::Listing;

/// How many items a client has a base of, where there are some and the root's listing shows none at
/// all, nor does that of the folder of deletions, if there is one, record any. Where deletions aren't
/// recorded all notes would be taken for deleted by others; and more likely the target was emptied, or
/// is another one.
pub fn fail_safe(listing: &Listing, tombs: Option<&Listing>, synced: &Seq<Id>) -> Option<u64>
    ensures { result ≡ fail_safe listing.entry.now (option_copied tombs.entry) synced.now }
{
    if synced.is_empty() || shows_items(listing) || records_any(tombs) {
        return None;
    }
    Some(synced.len() as u64)
}

/// Whether a listing shows an item.
#[tactic(auto, unfolding(crate::specs::Marks::marks_of))]
fn shows_items(listing: &Listing) -> bool
    ensures none { IsFalse result → marks_of listing.entry.now.entries ≡ [] }
    ensures some { IsTrue result → marks_of listing.entry.now.entries ≡ [] → ⊥ }
{
    for entry in listing.entries.as_slice() {
        if let Path::Item(_) = entry.path {
            return true;
        }
    }
    false
}

//! The numbers of the kinds, and what writing and reading a time are to each other. Each law is a
//! function with nothing to do, whose contract says it.

ghost use Rattle.std.specs.Prelude.{◌≡◌, ◌≤◌, ℕ, List, [], ◌∷◌, map};
ghost use Rattle.jop_base.specs.Times.{last_time};
ghost use Rattle.item_kinds.specs.Times.{time_text, IsTime};

use crate::kind::Kind;

/// The numbers of the kinds that have a name, as Joplin gives them.
pub fn kinds_have_their_numbers()
    ensures { map (λ kind. kind.0)
        (Kind.NOTE ∷ Kind.FOLDER ∷ Kind.RESOURCE ∷ Kind.TAG ∷ Kind.NOTE_TAG
        ∷ Kind.MASTER_KEY ∷ Kind.REVISION ∷ [])
        ≡ 1 ∷ 2 ∷ 4 ∷ 5 ∷ 6 ∷ 9 ∷ 13 ∷ [] }
{}

/// What is written of a time reads as that time.
pub fn reads_the_time_written()
    ensures { (time : ℕ) → time ≤ last_time → IsTime (time_text time) time }
{}

/// A text reads as one time only.
pub fn reads_as_one_time()
    ensures { (text : List ℕ) (time other : ℕ) → IsTime text time → IsTime text other
        → time ≡ other }
{}

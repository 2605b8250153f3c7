//! What writes do to sound tables, and that those of a change make it. Each law is a function with nothing to do, whose
//! contract says it.

ghost use Rattle.std.specs.Prelude.{ℕ, List, All};
ghost use Rattle.local_store.specs.declared.change.Change.{Change};
ghost use Rattle.local_store.specs.declared.tables.Tables.{Tables};
ghost use Rattle.local_store.specs.Sound.{IsSound};
ghost use Rattle.keeper_records.specs.declared.write.Write.{Write};
ghost use Rattle.keeper_records.specs.Stores.{MakesChange};
ghost use Rattle.keeper_records.specs.Writes.{IsSoundWrite, after_writes};

/// Sound tables stay sound when sound writes are made.
#[tactic(auto, using(crate::proofs::Sound::written_all_sound))]
pub fn sound_writes_keep_sound()
    ensures { (t : Tables) (ws : List Write) → IsSound t → All IsSoundWrite ws
        → IsSound (after_writes t ws) }
{}

/// The writes of a change make it, if the row and the number are those that it needs.
#[tactic(auto, using(crate::proofs::Made::writes_make))]
pub fn writes_make_their_change()
    ensures { (t : Tables) (change : Change) (number : ℕ) → MakesChange t change number }
{}

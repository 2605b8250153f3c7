//! What changes do to sound tables, and what the changes of a history make. Each law is a function with nothing to do,
//! whose contract says it.

ghost use Rattle.std.specs.Prelude.{◌≡◌, ◌++◌, ℕ, List, length};
ghost use Rattle.jop_target.specs.declared.event.Event.{Event};
ghost use Rattle.jop_target.specs.declared.tree.Tree.{Tree};
ghost use Rattle.local_store.specs.declared.change.Change.{Change};
ghost use Rattle.local_store.specs.declared.tables.Tables.{Tables};
ghost use Rattle.local_store.specs.Changing.{after, after_all};
ghost use Rattle.local_store.specs.Sound.{IsSound, IsAllowed};
ghost use Rattle.local_store.specs.Tale.{Tale, TaleStep, changes_of, tables_at, MakesAllowed, IsRun};

/// Sound tables stay sound when an allowed change is made.
#[tactic(auto, using(crate::proofs::Keeping::after_sound))]
pub fn allowed_changes_keep_sound()
    ensures { (t : Tables) (change : Change) → IsSound t → IsAllowed change
        → IsSound (after t change) }
{}

/// At each place of a history, the tables of a client whose changes are all allowed are sound.
#[tactic(auto, using(crate::proofs::Telling::tables_sound))]
pub fn told_tables_are_sound()
    ensures { (tale : Tale) (client : List ℕ) (place : ℕ) → MakesAllowed tale client
        → IsSound (tables_at tale client place) }
{}

/// The tables at the end of a history are those at an earlier place after all that the client changed since.
pub fn told_tables_follow_changes()
    ensures { (opening : Tree) (ss rs : List TaleStep) (client : List ℕ)
        → tables_at (record { opening = opening; steps = ss ++ rs }) client (length (ss ++ rs))
        ≡ after_all (tables_at (record { opening = opening; steps = ss ++ rs }) client (length ss))
        (changes_of client rs) }
{}

/// What a client changes in the steps of one run is the run's own list of changes.
#[tactic(auto, using(crate::proofs::Telling::changes_of_run))]
pub fn runs_make_their_changes()
    ensures { (client : List ℕ) (trail : List Event) (made : List Change) (ss : List TaleStep)
        → IsRun client trail made ss → changes_of client ss ≡ made }
{}

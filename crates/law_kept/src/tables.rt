//! Which notes are kept, by the licences over all tables. Each law is a function with nothing to
//! do, whose contract says it.

ghost use Rattle.std.specs.Prelude.{ℕ, List};
ghost use Rattle.local_store.specs.Tables.{new_tables};
ghost use Rattle.local_store.specs.Tale.{Tale};
ghost use Rattle.law_licences.specs.Deeds.{deeds_of};
ghost use Rattle.law_licences.specs.Licences.{ObeysData};
ghost use Rattle.law_licences.specs.Sealing.{no_keys};
ghost use Rattle.law_licences.specs.Stories.{it};
ghost use Rattle.law_licences.specs.Views.{at_rest};
ghost use Rattle.law_kept.specs.FairTables.{AllObeyData, AllObeyWithoutKeys, IsKnownAsSeen, IsServed, KeepsItem};
ghost use Rattle.law_kept.specs.Holding.{IsToldWell, TablesHoldAsTold};
ghost use Rattle.law_kept.specs.Stories.{second_client};
ghost use Rattle.law_kept.specs.TableStories.{a_list, a_trail};
ghost use Rattle.law_kept.specs.ToldStories.{a_told_conflict};
ghost use Rattle.law_kept.specs.Trails.{EndsInRun, ObeyingRunsKeepNotes, OthersObey};

/// What one has seen of a client that obeys says of each item what the client knows of it by its
/// own calls and changes.
pub fn views_say_what_is_known()
    ensures { IsKnownAsSeen }
{}

/// If the store tells the truth, each call and change of each client has its licence by the keys of
/// its session, and no other client's put of a note lands between a check and the put that follows
/// it, then no text of that note that a client saved is lost.
pub fn notes_are_kept_by_tables()
    ensures kept { (id : List ℕ) (tale : Tale) → IsServed id tale → AllObeyData tale
        → KeepsItem id tale }

    // The same, as one client's run promises it that obeys from the tables with which it began: of the others it asks
    // what they do with that note alone.
    ensures joined { ObeyingRunsKeepNotes }
{}

/// A client's row and its conflict notes are those of which the item's history speaks: the row
/// stands for the item that it holds, and each conflict note for its own. That is so where no
/// session has keys: a sealed file stands for what its writer sealed, and what another client's
/// keys open it to is not known here.
pub fn tables_hold_what_is_told()
    ensures { TablesHoldAsTold }
{}

/// A history meets those premises in which two clients change one note at once, and the run of the
/// one that comes second meets those of the law's second form.
pub fn clients_can_cross_by_tables()
    ensures served { IsServed it a_told_conflict }
    ensures obey { AllObeyData a_told_conflict }
    ensures told { IsToldWell a_told_conflict }
    ensures keyless { AllObeyWithoutKeys a_told_conflict }
    ensures run { ObeysData (at_rest no_keys new_tables) (deeds_of a_trail a_list) }
    ensures ends { EndsInRun a_told_conflict second_client new_tables a_trail a_list }
    ensures others { OthersObey it a_told_conflict second_client }
{}

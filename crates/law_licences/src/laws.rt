//! What the licences come to. Each law is a function with nothing to do, whose contract says it.

ghost use Rattle.std.specs.Prelude.{◌≡◌, ◌++◌, ℕ, List};
ghost use Rattle.law_licences.specs.Deeds.{Deed, changes_in, deeds_of, events_of};
ghost use Rattle.law_licences.specs.Laws.{CallsAreTold, IsToldInTurn, MakesNoneWait, MergesInTurn};
ghost use Rattle.law_licences.specs.Laws.{ObeysInParts, ObeysInTurn, SettlesOrLeaves, TablesAreTold};
ghost use Rattle.law_licences.specs.Licences.{AreWork, ObeysBySome, ObeysData};
ghost use Rattle.law_licences.specs.Sealing.{Sealing};
ghost use Rattle.law_licences.specs.Views.{View, view_from};

/// What is done in two parts has its licences exactly if each part has them, the second by what is seen behind the
/// first.
pub fn obedience_joins()
    ensures joined { ObeysInTurn }
    ensures parted { ObeysInParts }
    ensures merging { MergesInTurn }
    ensures seen { (v : View) (ds es : List Deed)
        → view_from v (ds ++ es) ≡ view_from (view_from v ds) es }

    // So with two parts of a trail, each with its changes.
    ensures told { IsToldInTurn }
{}

/// No session makes a row wait to be uploaded, and one that waited waits still, or was uploaded, gave way, or became a
/// conflict note.
pub fn sessions_settle_rows()
    ensures calm { MakesNoneWait }
    ensures settled { SettlesOrLeaves }
{}

/// What a session does within is told by its events and its changes, and so is what is seen of it then.
pub fn work_is_told()
    ensures deeds { (n : ℕ) (ds : List Deed) → AreWork ds
        → deeds_of (events_of n ds) (changes_in ds) ≡ ds }
    ensures calls { CallsAreTold }
    ensures tables { TablesAreTold }
{}

/// What has its licences by the keys of one client has them by some keys; and then it matters not which keys the client
/// is seen with.
pub fn keys_are_a_sessions_own()
    ensures some { (v : View) (ds : List Deed) → ObeysData v ds → ObeysBySome v ds }
    ensures joined { (v : View) (ds es : List Deed)
        → ObeysBySome v ds → ObeysBySome (view_from v ds) es → ObeysBySome v (ds ++ es) }
    ensures any { (s : Sealing) (v : View) (ds : List Deed) → ObeysBySome v ds
        → ObeysBySome (record v { sealing = s }) ds }
{}

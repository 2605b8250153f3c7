//! What a log and the trails of its clients come to. Each law is a function with nothing to do, whose
//! contract says it.

ghost use Rattle.std.specs.Prelude.{◌≡◌, ◌≤◌, ℕ, All, List, Option, length};
ghost use Rattle.call_log.specs.Agreeing.{AgreesWithLog, answers_to};
ghost use Rattle.call_log.specs.Closing.{AllAgree, SeatsWithin};
ghost use Rattle.call_log.specs.Logs.{IsHonestLog, opening_tree};
ghost use Rattle.call_log.specs.declared.entry.LogEntry.{LogEntry};
ghost use Rattle.jop_base.specs.Id.{IsIdText};
ghost use Rattle.jop_target.specs.History.{IsHonest, IsOrderly, part_of};
ghost use Rattle.jop_target.specs.declared.event.Event.{Event};
ghost use Rattle.jop_target.specs.declared.tree.Tree.{Tree};
ghost use Rattle.law_exclusion.specs.Exclusive.{IsExclusive};
ghost use Rattle.law_kept.specs.FairTables.{KeepsItem};
ghost use Rattle.law_kept.specs.Gap.{NoOtherUploadBetween};
ghost use Rattle.law_kept.specs.Telling.{steps_of};
ghost use Rattle.law_licences.specs.Deeds.{deeds_in, deeds_of};
ghost use Rattle.lease.specs.Exclusion.{IsTimely};
ghost use Rattle.local_store.specs.Tale.{made_in, numbers_from, plain, plain_steps};
ghost use Rattle.local_store.specs.declared.change.Change.{Change};
ghost use Rattle.woven.specs.Telling.{AreApart, AreLicensed, AreSeated, AreTold, DoObey, TellsTrail, beside, deeds_told};
ghost use Rattle.woven.specs.Weaving.{Clients, DoAgree, ToldEvent, events_told, weave};

use call_log::Trailed;

/// A log that is honest from an orderly tree on, woven with the trails of its seats, is an honest
/// history.
pub fn woven_is_honest()
    ensures honest { (tree : Tree) (log : List LogEntry) (clients : Clients) →
        IsOrderly tree → IsHonestLog tree log → DoAgree clients log →
        IsHonest (plain (weave tree log clients)) }
{}

/// The opening tree of a hall is orderly.
pub fn openings_are_orderly()
    ensures { (number : ℕ) → IsOrderly (opening_tree number) }
{}

/// A trail that agrees with the log can be woven: each of its events stands for an entry or for none.
/// Its deeds are those of the trail and of the list of its changes.
pub fn agreeing_trails_can_be_woven()
    ensures told { (log : List LogEntry) (seat : ℕ) (trail : List Event)
        (with_change : Event → Option Change) → AgreesWithLog log seat trail →
        (told : List ToldEvent) × TellsTrail (answers_to seat log) trail with_change told }
    ensures deeds { (made : List Change) (told : List ToldEvent) →
        All (λ t. t.change ≡ beside made t.event) told →
        made_in (events_told told) ≡ numbers_from 0 made →
        deeds_told told ≡ deeds_of (events_told told) made }
{}

/// So a log can be woven that was closed over these trails: its seats tell them.
pub fn closed_logs_can_be_woven<T: Trailed>()
    ensures { (log : List LogEntry) (trails : List T) (with_change : T → Event → Option Change) →
        AllAgree T.trail log trails → SeatsWithin (length trails) log →
        (told : ℕ → List ToldEvent) × AreTold T.trail with_change log trails told }
{}

/// What stands in the history of each seat's client is what the seat tells.
pub fn woven_tells_each()
    ensures events { (tree : Tree) (log : List LogEntry) (clients : Clients) →
        AreApart clients → AreSeated clients log → DoAgree clients log →
        (k : ℕ) → 1 ≤ k → k ≤ clients.count →
        part_of (clients.id k) (plain_steps (weave tree log clients).steps)
        ≡ events_told (clients.told k) }
    ensures deeds { (tree : Tree) (log : List LogEntry) (clients : Clients) →
        AreApart clients → AreSeated clients log → DoAgree clients log →
        (k : ℕ) → 1 ≤ k → k ≤ clients.count →
        deeds_in (clients.id k) (weave tree log clients).steps ≡ deeds_told (clients.told k) }
{}

/// If each seat keeps its locks and does under its leases what is allowed, and each write lands
/// before the end of its lease, the history is exclusive.
pub fn woven_is_exclusive()
    ensures exclusive { (tree : Tree) (log : List LogEntry) (clients : Clients) →
        IsOrderly tree → IsHonestLog tree log → AreApart clients → AreSeated clients log →
        DoAgree clients log → DoObey clients → IsTimely (plain (weave tree log clients)) →
        IsExclusive (plain (weave tree log clients)) }
{
    woven_is_honest();
    law_exclusion::exclusive();
}

/// If each seat has its licences, and no other client's put of an item lands between a check and the
/// put that follows it, no text of that note is lost.
pub fn woven_is_kept()
    ensures kept { (id : List ℕ) (tree : Tree) (log : List LogEntry) (clients : Clients) →
        IsOrderly tree → IsHonestLog tree log → AreApart clients → AreSeated clients log →
        DoAgree clients log → AreLicensed clients → IsIdText id →
        NoOtherUploadBetween (steps_of id (weave tree log clients)) →
        KeepsItem id (weave tree log clients) }
{
    woven_is_honest();
    law_kept::notes_are_kept_by_tables();
}

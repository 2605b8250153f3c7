//! What is said of stopped runs. Each law is a function with nothing to do, whose contract says it.

ghost use Rattle.std.specs.Prelude.{ℕ, List};
ghost use Rattle.jop_target.specs.declared.event.Event.{Event};
ghost use Rattle.law_exclusion.specs.Exclusive.{KeepsExclusive};
ghost use Rattle.law_kept.specs.Trails.{KeepsNotes};
ghost use Rattle.law_licences.specs.Deeds.{deeds_of};
ghost use Rattle.law_licences.specs.Licences.{MergesInfo, ObeysBySome, ObeysData};
ghost use Rattle.law_licences.specs.Views.{View, at_rest};
ghost use Rattle.law_licences.specs.Sealing.{Sealing};
ghost use Rattle.law_stops.specs.Cuts.{IsCut, IsCutWith};
ghost use Rattle.lease.specs.Discipline.{KeepsLocks};
ghost use Rattle.lease.specs.Exclusion.{KeepsApart};
ghost use Rattle.local_store.specs.declared.change.Change.{Change};
ghost use Rattle.local_store.specs.declared.tables.Tables.{Tables};
ghost use Rattle.target_upgrade.specs.Course.{KeepsVersions};

/// Wherever a run is stopped, what it did by then keeps its locks in order, renews in time, does
/// under its leases what is allowed there, and has its licences, if the whole run does. Its lock it
/// may still have.
pub fn stopped_runs_obey()
    ensures locks { (client : List ℕ) (trail cut : List Event) → IsCut trail cut →
        KeepsLocks client trail → KeepsLocks client cut }
    ensures versions { (client : List ℕ) (trail cut : List Event) → IsCut trail cut →
        KeepsVersions client trail → KeepsVersions client cut }

    ensures licensed { (v : View) (trail cut : List Event) (made kept : List Change) →
        IsCutWith trail made cut kept →
        ObeysData v (deeds_of trail made) → ObeysData v (deeds_of cut kept) }
    // Each of its sessions may have keys of its own.
    ensures by_some { (v : View) (trail cut : List Event) (made kept : List Change) →
        IsCutWith trail made cut kept →
        ObeysBySome v (deeds_of trail made) → ObeysBySome v (deeds_of cut kept) }
    ensures merging { (v : View) (trail cut : List Event) (made kept : List Change) →
        IsCutWith trail made cut kept →
        MergesInfo v (deeds_of trail made) → MergesInfo v (deeds_of cut kept) }
{}

/// So of every history of all clients in which a run was stopped, the same is promised as of one in
/// which it went on to its end: upgrades are held apart, each write lands on the version that was
/// read, and no saved text of a note is lost.
pub fn stopped_runs_keep_the_promises()
    ensures apart { (client : List ℕ) (trail cut : List Event) → IsCut trail cut →
        KeepsLocks client trail → KeepsApart client cut }
    ensures exclusive { (client : List ℕ) (trail cut : List Event) → IsCut trail cut →
        KeepsLocks client trail → KeepsVersions client trail → KeepsExclusive client cut }
    ensures kept { (client : List ℕ) (s : Sealing) (t : Tables) (trail cut : List Event)
        (made kept : List Change) →
        IsCutWith trail made cut kept →
        ObeysData (at_rest s t) (deeds_of trail made) → KeepsNotes client t cut kept }
{
    stopped_runs_obey();
    lease::held_apart();
    law_exclusion::exclusive();
    law_kept::notes_are_kept_by_tables();
}

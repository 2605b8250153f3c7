//! No premise of the law of exclusion can be left out: for each there is a short history that meets
//! the others and isn't exclusive. Each law is a function with nothing to do.

ghost use Rattle.std.specs.Prelude.{ℕ};
ghost use Rattle.law_exclusion.specs.Exclusive.{AllKeepVersions, IsExclusive};
ghost use Rattle.law_exclusion.specs.Broken.{info_deleted, put_at_another_version, shown_what_was};
ghost use Rattle.law_exclusion.specs.Broken.{written_late, written_past_the_locks, written_unread};
ghost use Rattle.jop_target.specs.History.{IsHonest};
ghost use Rattle.lease.specs.Exclusion.{AllKeepLocks, IsTimely};

/// A store that answers with an `info.json` that it no longer holds.
pub fn needs_an_honest_store()
    ensures timely { IsTimely shown_what_was }
    ensures locks { AllKeepLocks shown_what_was }
    ensures versions { AllKeepVersions shown_what_was }
    ensures broken { ¬ (IsExclusive shown_what_was) }
{}

/// A first write of an upgrade that lands past the end of its lease.
pub fn needs_timely_writes()
    ensures honest { IsHonest written_late }
    ensures locks { AllKeepLocks written_late }
    ensures versions { AllKeepVersions written_late }
    ensures broken { ¬ (IsExclusive written_late) }
{}

/// A client that writes without any lock.
pub fn needs_all_to_keep_their_locks()
    ensures honest { IsHonest written_past_the_locks }
    ensures timely { IsTimely written_past_the_locks }
    ensures versions { AllKeepVersions written_past_the_locks }
    ensures broken { ¬ (IsExclusive written_past_the_locks) }
{}

/// A synchroniser that writes without having read the version.
pub fn needs_the_version_to_be_read()
    ensures honest { IsHonest written_unread }
    ensures timely { IsTimely written_unread }
    ensures locks { AllKeepLocks written_unread }
    ensures broken { ¬ (IsExclusive written_unread) }
{}

/// A synchroniser that puts an `info.json` of another version, or deletes it.
pub fn needs_the_version_to_be_kept()
    ensures honest { IsHonest put_at_another_version × IsHonest info_deleted }
    ensures timely { IsTimely put_at_another_version × IsTimely info_deleted }
    ensures locks { AllKeepLocks put_at_another_version × AllKeepLocks info_deleted }
    ensures broken { ¬ (IsExclusive put_at_another_version) × ¬ (IsExclusive info_deleted) }
{}

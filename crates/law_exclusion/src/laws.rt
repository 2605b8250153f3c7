//! The law of exclusion in its three parts. Each law is a function with nothing to do, whose
//! contract says it.

ghost use Rattle.std.specs.Prelude.{ℕ, List};
ghost use Rattle.law_exclusion.specs.Exclusive.{AllKeepVersions, IsExclusive, KeptTrailsAreExclusive};
ghost use Rattle.law_exclusion.specs.Stories.{HasSync, begun_again, between_syncs, three};
ghost use Rattle.jop_target.specs.History.{History, IsHonest};
ghost use Rattle.jop_target.specs.declared.event.Event.{Event};
ghost use Rattle.lease.specs.Discipline.{KeepsLocks};
ghost use Rattle.lease.specs.Exclusion.{AllKeepLocks, HasUpgrade, IsTimely, Upgrades};
ghost use Rattle.lease.specs.Stories.{one, two};
ghost use Rattle.target_upgrade.specs.Course.{KeepsVersions};

/// While one client upgrades no other client's write lands, no two upgrades overlap, and each write
/// of a synchroniser and each first write of an upgrade lands on the version of the target that its
/// session has read: whatever clients' calls interleave, stop, fail and restart, and however often
/// an upgrade is stopped and begun again by another client. It holds if the store is honest, each
/// write lands before the end of its lease, and each client keeps its locks in order, renews in
/// time, and does under its leases what is allowed.
pub fn exclusive()
    ensures exclusive { (h : History) → IsHonest h → IsTimely h → AllKeepLocks h →
        AllKeepVersions h → IsExclusive h }

    // The same, as seen by one client whose trail keeps its locks and the version.
    ensures joined { KeptTrailsAreExclusive }
{}

/// A history in which one client upgrades a target from version 1 to 3, between the syncs of two
/// others, meets those premises, so that the law isn't empty.
pub fn can_upgrade_between_syncs()
    ensures honest { IsHonest between_syncs }
    ensures timely { IsTimely between_syncs }
    ensures locks { AllKeepLocks between_syncs }
    ensures versions { AllKeepVersions between_syncs }
    ensures upgrade { HasUpgrade between_syncs }
    ensures sync { HasSync between_syncs three }
{}

/// So does one in which a client is stopped while it upgrades a new target, and another begins
/// again from the version that it finds.
pub fn can_begin_again()
    ensures honest { IsHonest begun_again }
    ensures timely { IsTimely begun_again }
    ensures locks { AllKeepLocks begun_again }
    ensures versions { AllKeepVersions begun_again }
    ensures stopped { Upgrades begun_again 9 one 1 }
    ensures again { Upgrades begun_again 22 two 1 }
{}

//! What the lock discipline comes to over every history of all clients. Each law is a function with
//! nothing to do, whose contract says it.

ghost use Rattle.std.specs.Prelude.{◌≡◌, ◌∷◌, ◌++◌, ℕ, List, Some};
ghost use Rattle.jop_base.specs.declared.lock_name.LockKind.{LockKind};
ghost use Rattle.jop_target.specs.History.{History, IsHonest, tree_at};
ghost use Rattle.jop_target.specs.declared.event.Event.{Event};
ghost use Rattle.jop_target.specs.declared.event.Event.TheVariants.{Began};
ghost use Rattle.jop_target.specs.declared.reply.Listing.{Listing};
ghost use Rattle.lease.specs.Blocked.{IsShown, NamesALiveLock, StandsInTheWay};
ghost use Rattle.lease.specs.Discipline.{KeepsLocks};
ghost use Rattle.lease.specs.Exclusion.{AllKeepLocks, HasUpgrade, IsHeldApart, IsTimely, KeepsApart};
ghost use Rattle.lease.specs.Locks.{blocking_in};
ghost use Rattle.lease.specs.Outcomes.{IsBlocked};
ghost use Rattle.lease.specs.Stories.{an_upgrade};
ghost use Rattle.lease.specs.declared.lock.Lock.{Lock};

/// While one client upgrades no other client's write lands, and no two upgrades overlap: whatever
/// clients' calls interleave, stop, fail and restart, if the store is honest and each write lands
/// before the end of its lease. It is enough that each client keeps its locks in order and renews
/// in time, whatever it writes under its leases: it need not release them.
pub fn held_apart()
    ensures apart { (h : History) → IsHonest h → IsTimely h → AllKeepLocks h → IsHeldApart h }

    // The same, as seen by one client whose trail keeps its locks.
    ensures joined { (client : List ℕ) (trail : List Event) →
        KeepsLocks client trail → KeepsApart client trail }
{}

/// A history with an upgrade of two writes meets those premises, so that the law isn't empty.
pub fn can_upgrade()
    ensures honest { IsHonest an_upgrade }
    ensures timely { IsTimely an_upgrade }
    ensures keep { AllKeepLocks an_upgrade }
    ensures upgrade { HasUpgrade an_upgrade }
{}

/// A lock that a listing shows in a client's way stood in the tree then, with that stamp; it was
/// another's, and live at the listing's moment.
pub fn blocked()
    ensures stood { (h : History) (place : ℕ) (client : List ℕ) (listing : Listing)
        (kind : LockKind) (lock : Lock) →
        IsHonest h → IsShown h place client listing →
        blocking_in kind client listing ≡ Some lock →
        StandsInTheWay (tree_at h place).files listing.now kind client lock }

    // So does the lock for which a session gave up, whatever it did afterwards.
    ensures named { (kind : LockKind) (client : List ℕ) (old calls rest : List Event)
        (lock : Lock) (now : ℕ) →
        IsBlocked kind client (old ++ Began ∷ calls) lock now →
        NamesALiveLock kind client (Began ∷ (calls ++ rest)) lock now }
{}

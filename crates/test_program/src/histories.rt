//! Worked histories of all clients. Each is a law with nothing to do, over a list of what the clients do.

ghost use Rattle.std.specs.Prelude.{◌≡◌, ◌∷◌, [], ℕ, List, None};
ghost use Rattle.jop_base.specs.declared.lock_name.LockKind.TheVariants.{Exclusive, Sync};
ghost use Rattle.jop_target.specs.History.{IsHonest, WritesAt, part_of};
ghost use Rattle.law_exclusion.specs.Exclusive.{AllKeepVersions, IsExclusive};
ghost use Rattle.lease.specs.Exclusion.{AllKeepLocks, IsTimely, phase_at};
ghost use Rattle.lease.specs.Locks.{blocking_in};
ghost use Rattle.lease.specs.Outcomes.{IsBlocked};
ghost use Rattle.lease.specs.Phase.{Held, Leaving};
ghost use Rattle.lease.specs.Stories.{one, two, shown};
ghost use Rattle.test_program.specs.Histories.{behind_a_sync_lock, lock, renewed_in_time, renewed_too_late, two_upgraders};

use law_exclusion::exclusive;

/// Two clients that go for an upgrade at once both find the other's lock in the way, and neither writes.
pub fn two_upgraders_block_each_other()
    ensures honest { IsHonest two_upgraders }
    ensures keep { AllKeepLocks two_upgraders }
    ensures first { IsBlocked Exclusive one (part_of one two_upgraders.steps) (lock Exclusive two 5) 6 }
    ensures second { IsBlocked Exclusive two (part_of two two_upgraders.steps) (lock Exclusive one 4) 7 }
    ensures quiet { (place : ℕ) (client : List ℕ) → WritesAt two_upgraders place client → ⊥ }
    ensures timely { IsTimely two_upgraders }
    ensures versions { AllKeepVersions two_upgraders }
    ensures exclusive { IsExclusive two_upgraders }
{
    exclusive();
}

/// A lease is kept by a put before the end of its lock, and lost by one at that moment.
pub fn renews_before_the_end_alone()
    ensures kept { phase_at one renewed_in_time.steps ≡ Held Sync 180999 }
    ensures lost { phase_at one renewed_too_late.steps ≡ Leaving Sync }
    ensures honest { IsHonest renewed_in_time × IsHonest renewed_too_late }
    ensures keep { AllKeepLocks renewed_in_time × AllKeepLocks renewed_too_late }
    ensures timely { IsTimely renewed_in_time × IsTimely renewed_too_late }
    ensures versions { AllKeepVersions renewed_in_time × AllKeepVersions renewed_too_late }
    ensures exclusive { IsExclusive renewed_in_time × IsExclusive renewed_too_late }
{
    exclusive();
}

/// Another's sync lock keeps a client from an upgrade until its life is over.
pub fn a_sync_lock_blocks_an_upgrade()
    ensures honest { IsHonest (behind_a_sync_lock 184999) }
    ensures busy { IsBlocked Exclusive one (part_of one (behind_a_sync_lock 184999).steps) (lock Sync two 5000) 184999 }
    ensures free { blocking_in Exclusive one (record { now = 185000; entries = shown Sync two 5000 ∷ [] }) ≡ None }
    ensures keep { AllKeepLocks (behind_a_sync_lock 184999) }
    ensures timely { IsTimely (behind_a_sync_lock 184999) }
    ensures versions { AllKeepVersions (behind_a_sync_lock 184999) }
    ensures exclusive { IsExclusive (behind_a_sync_lock 184999) }
{
    exclusive();
}

ghost use Rattle.std.specs.Prelude.{◌≡◌, ◌≤◌, ◌↔◌, Err, IsOk, OnErr, false};
ghost use Rattle.lease.specs.Added.{Makes, leave_calls, renew_calls};
ghost use Rattle.lease.specs.Calls.{HasSeen, LeaseGoesOn, is_held};
ghost use Rattle.lease.specs.Discipline.{phase_of};
ghost use Rattle.lease.specs.Outcomes.{Renews};
ghost use Rattle.lease.specs.Phase.{Renewing};
ghost use Rattle.lease.specs.Standing.{IsDue, IsFresh, IsSameBut};
ghost use Rattle.jop_base.specs.Times.{last_time};

use crate::ask::put_and_look;
use crate::error::LeaseErr;
use crate::lease::Lease;
use crate::leaving::leave;
use crate::sight::{Sight, stamp_in_time};
use jop_target::Line;
use std::alloc::Global;

/// Renews a lease that is due: puts its own lock again and lists the folder. `Lost` if its own lock
/// isn't shown in time, or was put at the lease's end or later; before it the lock is deleted once,
/// whatever is answered. `TargetFault` if a call but that one failed.
pub fn renew<L: Line>(alloc: Global, line: &mut L, lease: &mut Lease) -> Result<(), LeaseErr>
    requires { IsDue lease.old (L.state line.old).trail }

    ensures gives { Renews lease.old lease.new (L.state line.old) (L.state line.new) result }
    ensures held { IsOk result ↔ IsFresh lease.new (L.state line.new).trail }
    ensures same { IsSameBut lease.old lease.new }
    ensures err { OnErr result (lease.new ≡ lease.old) }

    // Its own lock is put and listed, and at most deleted: no other call is made.
    ensures calls { let renewal = renew_calls lease.old.kind lease.old.client in
        Makes renewal (L.state line.old).trail (L.state line.new).trail result }

    ensures goes { LeaseGoesOn lease.old.client (L.state line.old) (L.state line.new) }
    ensures keeps { L.keeps line.old line.new }
{
    let sight = put_and_look(alloc, line, lease.kind, &lease.client)?;
    settle_again(alloc, line, lease, sight)
}

/// Keeps the lease from the stamp on that the listing shows, or leaves.
fn settle_again<L: Line>(
    alloc: Global,
    line: &mut L,
    lease: &mut Lease,
    sight: Sight,
) -> Result<(), LeaseErr>
    requires in_time { lease.old.stamp ≤ last_time }
    requires seen { let asked = Renewing lease.old.kind lease.old.stamp in
        HasSeen lease.old.kind lease.old.client asked (L.state line.old).trail sight }
    ensures gives { Renews lease.old lease.new (L.state line.old) (L.state line.new) result }
    ensures unheld { let phase = phase_of lease.old.client (L.state line.new).trail in
        result ≡ Err LeaseErr.NoMemory → is_held phase ≡ false }
    ensures same { IsSameBut lease.old lease.new }
    ensures err { OnErr result (lease.new ≡ lease.old) }
    ensures calls { let leave = leave_calls lease.old.kind lease.old.client in
        Makes leave (L.state line.old).trail (L.state line.new).trail result }
    ensures goes { LeaseGoesOn lease.old.client (L.state line.old) (L.state line.new) }
    ensures keeps { L.keeps line.old line.new }
{
    let end = Some(lease.end());
    match stamp_in_time(end, sight.now, sight.own) {
        Some(stamp) => {
            lease.stamp = stamp;
            Ok(())
        }
        None => {
            leave(alloc, line, lease.kind, &lease.client)?;
            Err(LeaseErr::Lost(sight.seen(end)))
        }
    }
}

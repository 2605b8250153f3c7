ghost use Rattle.std.specs.Prelude.{◌≡◌, ◌↔◌, IsOk, true};
ghost use Rattle.lease.specs.Added.{Makes, acquire_calls, leave_calls};
ghost use Rattle.lease.specs.Calls.{HasSeen, LeaseGoesOn, is_held};
ghost use Rattle.lease.specs.Discipline.{phase_of};
ghost use Rattle.lease.specs.Outcomes.{Acquires};
ghost use Rattle.lease.specs.Phase.{Asked, Free};
ghost use Rattle.lease.specs.Standing.{StandsIn};

use crate::ask::{look, put_and_look};
use crate::error::LeaseErr;
use crate::lease::Lease;
use crate::leaving::leave;
use crate::sight::{Sight, stamp_in_time};
use jop_base::{ClientId, LockKind};
use jop_target::Line;
use std::alloc::Global;

/// Takes a lease: makes the folder of locks, lists it, puts its own lock if none is in the way, and
/// lists again. `Busy` if a lock is in the way in the first listing, or in the second one that
/// shows its own lock in time; `Lost` if the second doesn't show it in time. Before either its own
/// lock, if it was put, is deleted once, whatever is answered. `TargetFault` if a call but that one
/// failed.
pub fn acquire<L: Line>(
    alloc: Global,
    line: &mut L,
    kind: LockKind,
    client: &ClientId,
) -> Result<Lease, LeaseErr>
    requires { StandsIn client.now (L.state line.old).trail Free }

    ensures gives { Acquires kind client.now (L.state line.old) (L.state line.new) result }
    ensures held { IsOk result ↔ (is_held (phase_of client.now (L.state line.new).trail) ≡ true) }

    // The folder of locks is made first, exactly once, and then listed.
    ensures calls { let calls = acquire_calls kind client.now in
        Makes calls (L.state line.old).trail (L.state line.new).trail result }

    ensures goes { LeaseGoesOn client.now (L.state line.old) (L.state line.new) }
    ensures keeps { L.keeps line.old line.new }
{
    let first = look(alloc, line, kind, client)?;
    let (in_way, now) = (first.blocking, first.now);
    if let Some(lock) = in_way {
        return Err(LeaseErr::Busy { lock, now });
    }
    let sight = put_and_look(alloc, line, kind, client)?;
    settle(alloc, line, kind, client, sight)
}

/// Keeps the lease that the second listing gives, or leaves.
fn settle<L: Line>(
    alloc: Global,
    line: &mut L,
    kind: LockKind,
    client: &ClientId,
    sight: Sight,
) -> Result<Lease, LeaseErr>
    requires { HasSeen kind client.now (Asked kind) (L.state line.old).trail sight }
    ensures gives { Acquires kind client.now (L.state line.old) (L.state line.new) result }
    ensures calls { let leave = leave_calls kind client.now in
        Makes leave (L.state line.old).trail (L.state line.new).trail result }
    ensures goes { LeaseGoesOn client.now (L.state line.old) (L.state line.new) }
    ensures keeps { L.keeps line.old line.new }
{
    let now = sight.now;
    let in_way = sight.blocking;
    match (stamp_in_time(None, now, sight.own), in_way) {
        (Some(stamp), None) => Ok(Lease {
            client: *client,
            kind,
            stamp,
        }),
        (Some(_), Some(lock)) => {
            leave(alloc, line, kind, client)?;
            Err(LeaseErr::Busy { lock, now })
        }
        (None, _) => {
            leave(alloc, line, kind, client)?;
            Err(LeaseErr::Lost(sight.seen(None)))
        }
    }
}

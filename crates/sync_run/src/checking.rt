ghost use Rattle.std.specs.Prelude.{false};
ghost use Rattle.lease.specs.Calls.{IsLeaseEvent};
ghost use Rattle.sync_run.specs.Checks.{AddsCheck, CheckAnswers, CheckGoesOn};
ghost use Rattle.sync_run.specs.Leases.{KeepsLeaseFrom, blocked_in};
ghost use Rattle.sync_run.specs.Inner.{lease_inner};

use crate::making::make_session;
use crate::session_err::SessionErr;
use crate::task::Task;
use jop_base::{ClientId, LockKind};
use jop_target::{Diary, Line, Target};
use law_exclusion::exclusive;
use lease::{acquire, blocked, held_apart, release};
use std::alloc::Global;

/// A session that takes a sync lock for the client and releases it. `Busy` and `LeaseLost` when there
/// is no lease, `TargetFault` when a call failed that the lease needs.
pub fn check_on<T: Target>(
    alloc: Global,
    target: &mut T,
    client: &ClientId,
    diary: &mut Diary,
) -> Result<(), SessionErr>
    ensures session { AddsCheck client.now diary.old.events diary.new.events result }
    ensures line { CheckGoesOn client.now diary.old.events diary.new.events (T.state target.old)
        (T.state target.new) }

    // Whatever the target answers, and whatever history the added events are the client's last part
    // of: the session keeps its locks, and calls nothing else; no other client's write falls within
    // an upgrade, and no two upgrades overlap; each write of a synchroniser, and each first write of
    // an upgrade, lands on the version that its session has read, if the other clients do under
    // their leases what is allowed; and the lock that a busy answer names stood in the way.
    ensures keeps { KeepsLeaseFrom LockKind.Sync client.now (blocked_in result) false
        diary.old.events diary.new.events }
{
    held_apart();
    exclusive();
    blocked();
    make_session::<Check, T>(alloc, target, client, diary)
}

/// Takes a sync lock and deletes it.
struct Check;

impl Task for Check {
    type Answer = ();

    ghost calls = { IsLeaseEvent };

    ghost answers = { CheckAnswers };

    fn run<L: Line>(alloc: Global, line: &mut L, client: &ClientId) -> Result<(), SessionErr> {
        let lease = acquire(alloc, line, LockKind::Sync, client)?;
        release(alloc, line, lease)?;
        Ok(())
    }

    ghost inner = { lease_inner };
}

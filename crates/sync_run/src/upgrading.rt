ghost use Rattle.std.specs.Prelude.{◌≡◌, Ok};
ghost use Rattle.target_upgrade.specs.Answers.{StandsAt, WorkGoesOn};
ghost use Rattle.target_upgrade.specs.Reading.{IsFoundAt};
ghost use Rattle.target_upgrade.specs.Steps.{Reads};
ghost use Rattle.target_upgrade.specs.Verdict.{AwaitsInfo, judged_version};
ghost use Rattle.sync_run.specs.Ordering.{AddsTaskInOrder, ComesInOrderAfter, LeavesInOrder};
ghost use Rattle.sync_run.specs.Outcomes.{Comes, StandsFor};
ghost use Rattle.sync_run.specs.Upgrades.{AddsUpgrade, RunsUpgrade, UpgradeAnswers, UpgradeCalls};
ghost use Rattle.sync_run.specs.Upgrades.{UpgradeGoesOn, UpgradeKeepsLease, answer_by, answer_released};
ghost use Rattle.sync_run.specs.Inner.{upgrade_inner};

use crate::making::make_session;
use crate::outcome::Outcome;
use crate::session_err::SessionErr;
use crate::task::Task;
use conflicts::Refusal;
use jop_base::{ClientId, LockKind};
use jop_target::{Diary, Line, Target};
use law_exclusion::{exclusive, redone};
use lease::{Lease, LeaseErr, acquire, blocked, held_apart, release};
use std::alloc::Global;
use target_upgrade::{Found, ReadErr, SUPPORTED, read_version, upgrade};

/// A session that brings a target to the supported version, and answers that version: it takes an
/// exclusive lock for the client, reads the version, makes the steps from it and releases the lock.
/// `Busy` and `LeaseLost` if there is no lease, or none any more; `Refused` by a newer version, or
/// an info that can't be read; `TargetFault` if a call failed that is needed.
pub fn upgrade_on<T: Target>(
    alloc: Global,
    target: &mut T,
    client: &ClientId,
    diary: &mut Diary,
) -> Result<u64, SessionErr>
    ensures session { AddsUpgrade client.now diary.old.events diary.new.events result }
    ensures line { UpgradeGoesOn client.now diary.old.events diary.new.events
        (T.state target.old) (T.state target.new) }

    // Whatever the target answers, and whatever history the added events are the client's last part
    // of: the session keeps its locks, and its other calls are the steps of an upgrade, in their
    // order; no other client's write falls within an upgrade, and no two upgrades overlap; each
    // write of a synchroniser, and each first write of an upgrade, lands on the version that its
    // session has read, if the other clients do under their leases what is allowed; the lock that a
    // busy answer names stood in the way; and done once, or behind an upgrade that was stopped
    // anywhere, it leaves the upgraded target.
    ensures keeps { UpgradeKeepsLease client.now result diary.old.events diary.new.events }

    // Once its calls say that the target's version is newer, or that its info can't be read, nothing more is called but
    // what the lease does by itself, and that is what is answered, unless memory runs out.
    ensures order { AddsTaskInOrder diary.old.events result diary.new.events }
{
    held_apart();
    exclusive();
    blocked();
    redone();
    make_session::<Upgrade, T>(alloc, target, client, diary)
}

/// Takes an exclusive lock, brings the target to the supported version, and deletes the lock.
struct Upgrade;

impl Task for Upgrade {
    type Answer = u64;

    ghost calls = { UpgradeCalls };

    ghost answers = { UpgradeAnswers };

    fn run<L: Line>(alloc: Global, line: &mut L, client: &ClientId) -> Result<u64, SessionErr> {
        let mut lease = acquire(alloc, line, LockKind::Exclusive, client)?;
        let outcome = upgrade_held(alloc, line, &mut lease)?;
        leave(alloc, line, lease, outcome)
    }

    ghost inner = { upgrade_inner };
}

/// Reads the version, and makes the steps from it.
fn upgrade_held<L: Line>(
    alloc: Global,
    line: &mut L,
    lease: &mut Lease,
) -> Result<Outcome, LeaseErr>
    requires { StandsAt lease.old (L.state line.old).trail Reads }
    ensures comes { Comes lease.old lease.new (L.state line.old) (L.state line.new) result }
    ensures order { ComesInOrderAfter AwaitsInfo
        (L.state line.old).trail result (L.state line.new).trail }
    ensures goes { WorkGoesOn lease.old.client (L.state line.old) (L.state line.new) }
    ensures keeps { L.keeps line.old line.new }
{
    match read_version(alloc, line, lease) {
        Ok(found) => upgrade_found(alloc, line, lease, found),
        Err(ReadErr::BadInfo) => Ok(Outcome::Refused(Refusal::BadInfo)),
        Err(ReadErr::Lease(error)) => Err(error),
    }
}

/// Makes the steps from what was found, unless its version is newer.
fn upgrade_found<L: Line>(
    alloc: Global,
    line: &mut L,
    lease: &mut Lease,
    found: Found,
) -> Result<Outcome, LeaseErr>
    requires { IsFoundAt lease.old found (L.state line.old).trail }
    ensures comes { Comes lease.old lease.new (L.state line.old) (L.state line.new) result }
    ensures order { ComesInOrderAfter (judged_version found.version)
        (L.state line.old).trail result (L.state line.new).trail }
    ensures goes { WorkGoesOn lease.old.client (L.state line.old) (L.state line.new) }
    ensures keeps { L.keeps line.old line.new }
{
    if found.version > SUPPORTED {
        return Ok(Outcome::Refused(Refusal::TargetNewer(found.version)));
    }
    upgrade(alloc, line, lease, found.version, found.info)?;
    Ok(Outcome::Upgraded)
}

/// Gives up the lease, and answers what the upgrade came to; only an upgrade that is done answers
/// that the release failed.
fn leave<L: Line>(
    alloc: Global,
    line: &mut L,
    lease: Lease,
    outcome: Outcome,
) -> Result<u64, SessionErr>
    requires { StandsFor lease (L.state line.old).trail outcome }
    ensures runs { RunsUpgrade lease.client (L.state line.old) (L.state line.new) result }
    ensures order { LeavesInOrder outcome (L.state line.old).trail result (L.state line.new).trail }
    ensures keeps { L.keeps line.old line.new }
{
    let released = release(alloc, line, lease);
    answer(released, outcome)
}

/// What a session answers that came to this, and whose release was answered so.
fn answer(released: Result<(), LeaseErr>, outcome: Outcome) -> Result<u64, SessionErr>
    ensures { result ≡ answer_released released outcome }
{
    match released {
        Ok(()) => answer_by(true, outcome),
        Err(LeaseErr::NoMemory) => Err(SessionErr::NoMemory),
        Err(LeaseErr::TargetFault) => answer_by(false, outcome),
        Err(LeaseErr::Lost(_)) => answer_by(false, outcome),
        Err(LeaseErr::Busy { lock: _, now: _ }) => answer_by(false, outcome),
    }
}

/// The same, if the release was done, or if it failed.
fn answer_by(released: bool, outcome: Outcome) -> Result<u64, SessionErr>
    ensures { result ≡ answer_by released outcome }
{
    match outcome {
        Outcome::Upgraded if released => Ok(SUPPORTED),
        Outcome::Upgraded => Err(SessionErr::TargetFault),
        Outcome::Refused(why) => Err(SessionErr::Refused(why)),
    }
}

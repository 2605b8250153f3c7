use crate::upgraded::{Outcome, TWO, holds, id, place, upgrade, upgrade_noted, version_after};
use conflicts::Refusal;
use jop_base::{Bytes, LockKind, LockName, Path};
use jop_target::{Diary, MemTarget};
use lease::{Lock, Seen};
use std::alloc::Global;
use std::test::Fail;
use sync_run::SessionErr;

/// What an upgrade comes to of a target with this file, whose call of this number fails, and the
/// number of its events.
fn upgrade_of(
    alloc: Global,
    path: Path,
    text: &[u8],
    failing: u64,
) -> Result<(Outcome, usize), Fail> {
    let mut target = MemTarget::new(alloc, 184_998, 1);
    place(alloc, &mut target, path, text, 5000)?;
    target.fail(failing, true)?;
    upgrade(alloc, &mut target)
}

fn lock(digits: &[u8]) -> Result<LockName, Fail> {
    Ok(LockName {
        kind: LockKind::Sync,
        client_type: 3,
        client: id(digits)?,
    })
}

const NEWER: Outcome = Err(SessionErr::Refused(Refusal::TargetNewer(4)));

const BAD_INFO: Outcome = Err(SessionErr::Refused(Refusal::BadInfo));

/// What `info.json` says, the number of the call that fails, and what an upgrade comes to.
const INFOS: [(&[u8], u64, Outcome); 8] = [
    (b"{\"version\":3}", 0, Ok(3)),
    (b"{\"version\":3}", 6, Err(SessionErr::TargetFault)),
    (b"{\"version\":4}", 0, NEWER),
    (b"{\"version\":4}", 6, NEWER),
    (b"{}", 0, BAD_INFO),
    (b"{}", 6, BAD_INFO),
    (b"{\"version\":-1}", 0, BAD_INFO),
    (b"", 0, BAD_INFO),
];

#[test]
fn answers_by_what_was_read(rt: HostRuntime) -> Result<(), Fail> {
    for (text, failing, outcome) in INFOS {
        // A lock is taken by four calls, the info is got, and the lock is deleted.
        assert!(rt; upgrade_of(rt.alloc(), Path::Info, text, failing)? == (outcome, 8));
    }
    Ok(())
}

#[test]
fn reads_any_old_version_as_one(rt: HostRuntime) -> Result<(), Fail> {
    // Two reads, four steps, a listing and a put.
    for (failing, wanted) in [(0, (Ok(3), 15)), (8, (Err(SessionErr::TargetFault), 10))] {
        assert!(rt; upgrade_of(rt.alloc(), Path::OldVersion, b"7", failing)? == wanted);
    }
    Ok(())
}

#[test]
fn finds_a_live_lock_in_its_way(rt: HostRuntime) -> Result<(), Fail> {
    let name = lock(TWO)?;
    let lock = Lock { name, stamp: 5000 };
    let busy = Err(SessionErr::Busy { lock, now: 184_999 });
    assert!(rt; upgrade_of(rt.alloc(), Path::Lock(name), b"", 0)? == (busy, 4));
    Ok(())
}

/// What an upgrade comes to of an empty target whose clock goes on so far at each call, and whether
/// it wrote the version for old clients.
fn upgrade_at(alloc: Global, pace: u64, diary: &mut Diary) -> Result<(Outcome, bool), Fail> {
    let mut target = MemTarget::new(alloc, 0, pace);
    let outcome = upgrade_noted(alloc, &mut target, diary)?;
    Ok((outcome, holds(target.tree(), Path::OldVersion, b"2")))
}

/// What was seen by an upgrade that renews too late.
const LATE: Seen = Seen {
    own: Some(120_000),
    now: 180_000,
    old_end: None,
};

/// Whether an upgrade succeeds, and a slower one is lost.
fn is_lost_late(alloc: Global) -> Result<bool, Fail> {
    let mut diary = Diary::new(alloc);
    let (outcome, _) = upgrade_at(alloc, 59_000, &mut diary)?;
    let lost = upgrade_at(alloc, 60_000, &mut diary)?;
    Ok(outcome == Ok(3) && lost == (Err(SessionErr::LeaseLost(LATE)), false))
}

/// An upgrade whose renewal is put at the old end is lost, with what was seen.
#[test]
fn loses_a_lease_that_is_renewed_too_late(rt: HostRuntime) -> Result<(), Fail> {
    assert!(rt; is_lost_late(rt.alloc())?);
    Ok(())
}

/// Whether an upgrade succeeds on a target that shows this moment next, beside a lock of moment 2.
fn is_free(alloc: Global, next: u64) -> Result<bool, Fail> {
    let mut target = MemTarget::new(alloc, next, 1);
    let own = Path::Lock(lock(TWO)?);
    target.place(own, Bytes::new(alloc), 2)?;
    let (version, _) = version_after(alloc, &mut target)?;
    Ok(version.is_some())
}

/// A lock whose put failed, and landed, is in the way of another client as long as it lives.
#[test]
fn a_lock_that_landed_unheard_is_in_the_way(rt: HostRuntime) -> Result<(), Fail> {
    assert!(rt; !is_free(rt.alloc(), 180_000)?);
    assert!(rt; is_free(rt.alloc(), 180_001)?);
    Ok(())
}

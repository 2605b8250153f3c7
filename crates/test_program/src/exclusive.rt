use crate::locks::{ONE, TWO, id, lock_name};
use jop_base::{Bytes, LockKind, Path};
use jop_target::{Diary, MemTarget, TargetLine};
use lease::{Lease, LeaseErr, Lock, acquire};
use std::alloc::Global;
use std::test::Fail;

/// Puts another's sync lock of 5000 on a target.
fn place_a_sync_lock(alloc: Global, target: &mut MemTarget) -> Result<(), Fail> {
    let path = Path::Lock(lock_name(LockKind::Sync, TWO)?);
    target.place(path, Bytes::new(alloc), 5000)?;
    Ok(())
}

/// Goes for an exclusive lock in a session of its own.
fn go_for_an_upgrade(
    alloc: Global,
    target: &mut MemTarget,
) -> Result<Result<Lease, LeaseErr>, Fail> {
    let mut diary = Diary::new(alloc);
    diary.begin()?;
    let mut line = TargetLine {
        target,
        diary: &mut diary,
    };
    Ok(acquire(alloc, &mut line, LockKind::Exclusive, &id(ONE)?))
}

fn is_taken(alloc: Global) -> Result<bool, Fail> {
    let lease = Lease {
        client: id(ONE)?,
        kind: LockKind::Exclusive,
        stamp: 2,
    };
    let mut target = MemTarget::new(alloc, 0, 1);
    let taken = go_for_an_upgrade(alloc, &mut target)? == Ok(lease);
    Ok(taken && target.tree().files.len() == 1)
}

#[test]
fn takes_an_exclusive_lock(rt: HostRuntime) -> Result<(), Fail> {
    assert!(rt; is_taken(rt.alloc())?);
    Ok(())
}

/// What a client is answered that goes for an upgrade behind another's sync lock.
fn answer_behind(alloc: Global, target: &mut MemTarget) -> Result<Result<Lease, LeaseErr>, Fail> {
    place_a_sync_lock(alloc, target)?;
    go_for_an_upgrade(alloc, target)
}

/// Whether the sync lock is in the way of a client whose first call has this moment, and its second
/// one that.
fn is_in_the_way(alloc: Global, first: u64, now: u64) -> Result<bool, Fail> {
    let lock = Lock {
        name: lock_name(LockKind::Sync, TWO)?,
        stamp: 5000,
    };
    let mut target = MemTarget::new(alloc, first, 1);
    Ok(answer_behind(alloc, &mut target)? == Err(LeaseErr::Busy { lock, now }))
}

fn is_free(alloc: Global, first: u64) -> Result<bool, Fail> {
    let mut target = MemTarget::new(alloc, first, 1);
    Ok(answer_behind(alloc, &mut target)?.is_ok())
}

#[test]
fn finds_a_sync_lock_in_the_way_to_the_end_of_its_life(rt: HostRuntime) -> Result<(), Fail> {
    assert!(rt; is_in_the_way(rt.alloc(), 184_998, 184_999)?);
    assert!(rt; is_free(rt.alloc(), 184_999)?);
    Ok(())
}

#[test]
fn a_lease_ends_with_its_lock_and_is_due_before(rt: HostRuntime) -> Result<(), Fail> {
    for (stamp, end, due) in [(1000, 181_000, 61_000), (180_999, 360_999, 240_999)] {
        let lease = Lease {
            client: id(ONE)?,
            kind: LockKind::Sync,
            stamp,
        };
        assert_eq!(rt; lease.end(), end);
        assert!(rt; lease.due(due));
        assert!(rt; !lease.due(due - 1));
    }
    Ok(())
}

use crate::upgraded::{TWO, holds, id, place, version_after};
use jop_base::Path;
use jop_target::MemTarget;
use std::alloc::Global;
use std::test::Fail;

/// A master key as an older version kept it.
const KEY: &[u8] =
    b"\n\nid: 22222222222222222222222222222222\nupdated_time: 2020-09-13T12:26:40.000Z\ncontent: abc\ntype_: 9";

/// The `info.json` that has it.
const INFO: &str = concat!(
    "{\"activeMasterKeyId\":{\"updatedTime\":0,\"value\":\"\"},",
    "\"e2ee\":{\"updatedTime\":0,\"value\":false},",
    "\"masterKeys\":[{\"content\":\"abc\",\"id\":\"22222222222222222222222222222222\",",
    "\"updated_time\":1600000000000}],\"version\":3}"
);

fn place_key(alloc: Global, target: &mut MemTarget) -> Result<(), Fail> {
    place(alloc, target, Path::Item(id(TWO)?), KEY, 5)?;
    Ok(place(alloc, target, Path::OldVersion, b"1", 5)?)
}

/// A target at version 1 that keeps a key in an item.
fn with_a_key(alloc: Global) -> Result<MemTarget, Fail> {
    let mut target = MemTarget::new(alloc, 0, 1);
    place_key(alloc, &mut target)?;
    Ok(target)
}

fn is_upgraded(target: &MemTarget) -> Result<bool, Fail> {
    let tree = target.tree();
    Ok(
        holds(tree, Path::OldVersion, b"2")
            && holds(tree, Path::Info, INFO.as_bytes())
            && holds(tree, Path::Item(id(TWO)?), KEY),
    )
}

/// Whether an upgrade of a target that keeps a key succeeds, with so many events.
fn succeeds(alloc: Global, target: &mut MemTarget, events: usize) -> Result<bool, Fail> {
    let after = version_after(alloc, target)?;
    Ok(after == (Some(3), events) && is_upgraded(target)?)
}

fn takes_a_key(alloc: Global) -> Result<bool, Fail> {
    let mut target = with_a_key(alloc)?;
    succeeds(alloc, &mut target, 16)
}

#[test]
fn takes_the_keys_of_items_into_the_info(rt: HostRuntime) -> Result<(), Fail> {
    assert!(rt; takes_a_key(rt.alloc())?);
    Ok(())
}

/// Whether an upgrade fails, and the next one succeeds.
fn fails_once(alloc: Global, target: &mut MemTarget) -> Result<bool, Fail> {
    let (first, _) = version_after(alloc, target)?;
    let (second, _) = version_after(alloc, target)?;
    Ok(first.is_none() && second == Some(3) && is_upgraded(target)?)
}

fn is_redone(alloc: Global, nth: u64, landed: bool) -> Result<bool, Fail> {
    let mut target = with_a_key(alloc)?;
    target.fail(nth, landed)?;
    fails_once(alloc, &mut target)
}

/// Stopped at each of its fourteen calls, landed or not, and run again.
#[test]
fn is_the_same_when_stopped_and_run_again(rt: HostRuntime) -> Result<(), Fail> {
    let alloc = rt.alloc();
    for nth in 1..15u64 {
        assert!(rt; is_redone(alloc, nth, false)?);
        assert!(rt; is_redone(alloc, nth, true)?);
    }
    Ok(())
}

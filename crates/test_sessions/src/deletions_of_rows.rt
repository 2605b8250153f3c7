use crate::texts::{A, B, OLD_A, OLD_B, R, RESOURCE};
use jop_base::Bytes;
use jop_target::MemTarget;
use std::alloc::Global;
use std::test::Fail;
use test_client::{
    BrokenOff, Client, OWN, Part, Place, Standing, Step, Text, place_bytes, target_of,
};

/// A note and a resource were removed, and another note wasn't.
const STEPS: [Step; 5] = [
    Step::Take(A, OLD_A),
    Step::Take(B, OLD_B),
    Step::Take(R, RESOURCE),
    Step::Remove(A),
    Step::Remove(R),
];

const LEFT: Standing = Standing {
    rows: &[(B, OLD_B, false)],
    copies: &[],
};

/// A target with these files, and the bytes of the resource.
fn target_with(alloc: Global, files: &[Text]) -> Result<MemTarget, BrokenOff> {
    let bytes = Bytes::from_vec(b"hello".to_vec(alloc)?);
    let mut target = target_of(alloc, files)?;
    place_bytes(&mut target, R, bytes)?;
    Ok(target)
}

fn place_with(alloc: Global, files: &[Text]) -> Result<Place, BrokenOff> {
    let target = target_with(alloc, files)?;
    let client = Client::after(alloc, OWN, STEPS.as_slice())?;
    Ok(Place { client, target })
}

/// Whether the files of what was removed are gone, and the deletions with them.
fn is_rid(alloc: Global, place: &Place) -> Result<bool, BrokenOff> {
    let done = place.client.keeper.tables().deletions.is_empty();
    Ok(done && place.holds_alone(&[(B, OLD_B)])? && place.has(alloc, &LEFT)?)
}

fn rids(alloc: Global, place: &mut Place) -> Result<bool, BrokenOff> {
    let done = place.counts(alloc, Part::Whole)? == [0, 2, 0, 0, 0, 0];
    Ok(done && is_rid(alloc, place)?)
}

/// Whether a session deletes what was removed of these files.
fn deletes(alloc: Global, files: &[Text]) -> Result<bool, BrokenOff> {
    let mut place = place_with(alloc, files)?;
    rids(alloc, &mut place)
}

#[test]
fn files_of_removed_items_are_deleted(rt: HostRuntime) -> Result<(), Fail> {
    let alloc = rt.alloc();
    assert!(rt; deletes(alloc, &[(A, OLD_A), (B, OLD_B), (R, RESOURCE)])?);
    assert!(rt; deletes(alloc, &[(B, OLD_B), (R, RESOURCE)])?);
    Ok(())
}

fn mends(alloc: Global, place: &mut Place, nth: u64, landed: bool) -> Result<bool, BrokenOff> {
    place.target.fail(nth, landed)?;
    Ok(place.breaks_off_once(alloc, Part::Whole) && is_rid(alloc, place)?)
}

/// Whether all comes to the same if a call fails. Nine calls are made: four for the lease, three
/// deletes, a listing and a get.
fn is_mended(alloc: Global, nth: u64, landed: bool) -> Result<bool, BrokenOff> {
    let mut place = place_with(alloc, &[(A, OLD_A), (B, OLD_B), (R, RESOURCE)])?;
    mends(alloc, &mut place, nth, landed)
}

#[test]
fn a_deletion_that_breaks_off_is_made_again(rt: HostRuntime) -> Result<(), Fail> {
    let alloc = rt.alloc();
    for nth in 1..=9 {
        assert!(rt; is_mended(alloc, nth, false)?);
        assert!(rt; is_mended(alloc, nth, true)?);
    }
    Ok(())
}

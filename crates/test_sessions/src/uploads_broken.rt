use crate::texts::{A, B, C, MY_A, MY_B, MY_C, OLD_A, OLD_B, OLD_C, THEIR_B};
use std::alloc::Global;
use std::test::Fail;
use test_client::{BrokenOff, Part, Place, Standing, Step, Text};

/// Three notes are edited.
const STEPS: [Step; 6] = [
    Step::Take(A, OLD_A),
    Step::Take(B, OLD_B),
    Step::Take(C, OLD_C),
    Step::Save(A, MY_A),
    Step::Save(B, MY_B),
    Step::Save(C, MY_C),
];

/// The file of the second was edited too, and that of the third is gone.
const FILES: [Text; 2] = [(A, OLD_A), (B, THEIR_B)];

/// The first note is put, and the others become conflict notes.
const SETTLED: Standing = Standing {
    rows: &[(A, MY_A, false), (B, THEIR_B, false)],
    copies: &[(B, MY_B), (C, MY_C)],
};

fn make_place(alloc: Global) -> Result<Place, BrokenOff> {
    Place::new(alloc, STEPS.as_slice(), FILES.as_slice())
}

/// Whether a session breaks off, and all comes to the same once another is made.
fn comes_to_the_same(alloc: Global, place: &mut Place) -> Result<bool, BrokenOff> {
    let once = place.breaks_off_once(alloc, Part::Upload);
    let files = place.holds_alone(&[(A, MY_A), (B, THEIR_B)])?;
    Ok(once && files && place.has(alloc, &SETTLED)?)
}

fn mends(alloc: Global, place: &mut Place, nth: u64, landed: bool) -> Result<bool, BrokenOff> {
    place.target.fail(nth, landed)?;
    comes_to_the_same(alloc, place)
}

fn keeps(alloc: Global, place: &mut Place, nth: u64) -> Result<bool, BrokenOff> {
    place.client.keeper.fail(nth)?;
    comes_to_the_same(alloc, place)
}

/// Whether a call that fails, landed or not, breaks a session off and all comes to the same. Eight
/// calls are made in one: four for the lease, three gets and a put.
fn is_mended(alloc: Global, nth: u64, landed: bool) -> Result<bool, BrokenOff> {
    let mut place = make_place(alloc)?;
    mends(alloc, &mut place, nth, landed)
}

/// The same of a call of the keeper's store. Nine were made before, one for each note that was read and
/// two for each that was saved; a session reads the tables, and makes three changes, each in one call.
fn is_kept(alloc: Global, nth: u64) -> Result<bool, BrokenOff> {
    let mut place = make_place(alloc)?;
    keeps(alloc, &mut place, nth)
}

#[test]
fn a_call_that_fails_loses_nothing(rt: HostRuntime) -> Result<(), Fail> {
    let alloc = rt.alloc();
    for nth in 1..=8 {
        assert!(rt; is_mended(alloc, nth, false)?);
        assert!(rt; is_mended(alloc, nth, true)?);
    }
    Ok(())
}

#[test]
fn a_change_that_is_not_kept_is_made_again(rt: HostRuntime) -> Result<(), Fail> {
    let alloc = rt.alloc();
    for nth in 10..=13 {
        assert!(rt; is_kept(alloc, nth)?);
    }
    Ok(())
}

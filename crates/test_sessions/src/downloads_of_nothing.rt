use crate::texts::{A, B, C, MY_A, OLD_A, OLD_B, OLD_C};
use std::alloc::Global;
use std::test::Fail;
use test_client::{BrokenOff, Part, Place, Standing, Step};

const TAKEN: [Step; 3] = [
    Step::Take(A, OLD_A),
    Step::Take(B, OLD_B),
    Step::Take(C, OLD_C),
];

const SAVED: [Step; 3] = [
    Step::Save(A, OLD_A),
    Step::Save(B, OLD_B),
    Step::Save(C, OLD_C),
];

const EDITED: [Step; 3] = [
    Step::Take(A, OLD_A),
    Step::Save(A, MY_A),
    Step::Save(B, OLD_B),
];

const ALL: Standing = Standing {
    rows: &[(A, OLD_A, false), (B, OLD_B, false), (C, OLD_C, false)],
    copies: &[],
};

const NEW: Standing = Standing {
    rows: &[(A, OLD_A, true), (B, OLD_B, true), (C, OLD_C, true)],
    copies: &[],
};

const MIXED: Standing = Standing {
    rows: &[(A, MY_A, true), (B, OLD_B, true)],
    copies: &[],
};

/// Whether the target looks emptied to a client that has a base of so many items.
fn looks_emptied(alloc: Global, place: &mut Place, count: u64) -> bool {
    match place.counts(alloc, Part::Download) {
        Ok(counts) => count == 0 && counts == [0, 0, 0, 0, 0, 0],
        Err(error) => count > 0 && error.is_emptied(count),
    }
}

fn stays(
    alloc: Global,
    place: &mut Place,
    count: u64,
    standing: &Standing,
) -> Result<bool, BrokenOff> {
    Ok(looks_emptied(alloc, place, count) && place.has(alloc, standing)?)
}

/// Whether a client that has done these steps finds that, and keeps what it has.
fn keeps(
    alloc: Global,
    steps: &[Step],
    count: u64,
    standing: &Standing,
) -> Result<bool, BrokenOff> {
    let mut place = Place::new(alloc, steps, &[])?;
    stays(alloc, &mut place, count, standing)
}

#[test]
fn nothing_goes_if_no_item_is_shown(rt: HostRuntime) -> Result<(), Fail> {
    let alloc = rt.alloc();
    assert!(rt; keeps(alloc, TAKEN.as_slice(), 3, &ALL)?);
    assert!(rt; keeps(alloc, EDITED.as_slice(), 1, &MIXED)?);
    assert!(rt; keeps(alloc, SAVED.as_slice(), 0, &NEW)?);
    Ok(())
}

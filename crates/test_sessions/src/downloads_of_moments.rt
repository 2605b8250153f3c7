use crate::texts::{A, B, OLD_A, OLD_B, THEIR_A};
use std::alloc::Global;
use std::test::Fail;
use test_client::{BrokenOff, Client, OWN, Part, Place, Standing, Step, Text, target_at};

/// The client has read the target up to moment 5000, and the first file with it. Both were written
/// then.
const STEPS: [Step; 2] = [Step::Take(A, OLD_A), Step::Read(5000, A)];

/// The first file differs from what the client read, which shows if it is read again.
const FILES: [Text; 2] = [(A, THEIR_A), (B, OLD_B)];

const READ: Standing = Standing {
    rows: &[(A, OLD_A, false), (B, OLD_B, false)],
    copies: &[],
};

/// Whether of two files of one moment the one is read that wasn't, if the listing is of this
/// moment, and whether the client then has read so many of that moment.
fn reads_the_other(alloc: Global, now: u64, seen: usize) -> Result<bool, BrokenOff> {
    let client = Client::after(alloc, OWN, STEPS.as_slice())?;
    let target = target_at(alloc, now, 0, FILES.as_slice(), 5000)?;
    let mut place = Place { client, target };
    reads(alloc, &mut place, seen)
}

fn reads(alloc: Global, place: &mut Place, seen: usize) -> Result<bool, BrokenOff> {
    let counts = place.counts(alloc, Part::Download)?;
    let context = &place.client.keeper.tables().context;
    let next = context.moment == 5000 && context.seen.len() == seen;
    Ok(next && counts == [0, 0, 1, 0, 0, 0] && place.has(alloc, &READ)?)
}

#[test]
fn files_of_a_moment_are_read_once_it_is_over(rt: HostRuntime) -> Result<(), Fail> {
    let alloc = rt.alloc();
    assert!(rt; reads_the_other(alloc, 9000, 2)?);
    assert!(rt; reads_the_other(alloc, 5000, 0)?);
    Ok(())
}

use crate::texts::{A, MY_A, OLD_A, OTHER, THEIR_A};
use jop_target::MemTarget;
use std::alloc::Global;
use std::test::Fail;
use test_client::{BrokenOff, Client, OWN, Part, Place, Standing, Step, counts, target_of};

const MINE: Standing = Standing {
    rows: &[(A, MY_A, false)],
    copies: &[],
};

const YIELDED: Standing = Standing {
    rows: &[(A, MY_A, false)],
    copies: &[(A, THEIR_A)],
};

/// Two clients of one target.
struct Pair {
    one: Client,
    two: Client,
    target: MemTarget,
}

// Written out, so that each end of its owners calls this: a derived one is written out at each end.
impl Drop for Pair {
    fn drop(self) {
        let Pair {
            one: _,
            two: _,
            target: _,
        } = self;
    }
}

/// Both have read a note and edited it, each otherwise.
fn make_pair(alloc: Global) -> Result<Pair, BrokenOff> {
    let one = Client::after(alloc, OWN, &[Step::Take(A, OLD_A), Step::Save(A, MY_A)])?;
    let two = Client::after(
        alloc,
        OTHER,
        &[Step::Take(A, OLD_A), Step::Save(A, THEIR_A)],
    )?;
    let target = target_of(alloc, &[(A, OLD_A)])?;
    Ok(Pair { one, two, target })
}

impl Pair {
    /// Whether a session of the first client puts so many items and takes none, and leaves it its
    /// own text.
    fn first_puts(&mut self, alloc: Global, put: u64) -> Result<bool, BrokenOff> {
        let report = self.one.sync(alloc, &mut self.target, Part::Whole)?;
        let done = counts(&report) == [put, 0, 0, 0, 0, 0];
        Ok(done && MINE.is_of(alloc, self.one.keeper.tables())?)
    }

    /// Whether a session of the second client makes a conflict note of its text.
    fn second_yields(&mut self, alloc: Global) -> Result<bool, BrokenOff> {
        let report = self.two.sync(alloc, &mut self.target, Part::Whole)?;
        let done = counts(&report) == [0, 0, 0, 0, 1, 0];
        Ok(done && YIELDED.is_of(alloc, self.two.keeper.tables())?)
    }

    /// Whether the second to sync gives way, and the first has nothing to do then.
    fn takes_turns(&mut self, alloc: Global) -> Result<bool, BrokenOff> {
        let first = self.first_puts(alloc, 1)?;
        let second = self.second_yields(alloc)?;
        Ok(first && second && self.first_puts(alloc, 0)?)
    }
}

fn two_take_turns(alloc: Global) -> Result<bool, BrokenOff> {
    let mut pair = make_pair(alloc)?;
    pair.takes_turns(alloc)
}

#[test]
fn the_second_of_two_gives_way(rt: HostRuntime) -> Result<(), Fail> {
    assert!(rt; two_take_turns(rt.alloc())?);
    Ok(())
}

/// Whether a put that landed and wasn't told, the sixth call, breaks a session off, and the next
/// one finds its own text.
fn finds_its_own(alloc: Global, place: &mut Place) -> Result<bool, BrokenOff> {
    place.target.fail(6, true)?;
    let broken_off = place.counts(alloc, Part::Whole);
    let counts = place.counts(alloc, Part::Whole)?;
    Ok(broken_off.is_err() && counts == [0, 0, 0, 0, 0, 0] && place.has(alloc, &MINE)?)
}

fn its_own_is_found(alloc: Global) -> Result<bool, BrokenOff> {
    let mut place = Place::new(alloc, &[Step::Save(A, MY_A)], &[])?;
    finds_its_own(alloc, &mut place)
}

#[test]
fn a_put_that_was_never_told_makes_no_copy(rt: HostRuntime) -> Result<(), Fail> {
    assert!(rt; its_own_is_found(rt.alloc())?);
    Ok(())
}

fn notes_one(alloc: Global, place: &mut Place) -> Result<bool, BrokenOff> {
    Ok(place.counts(alloc, Part::Whole)? == [0, 0, 0, 0, 0, 1])
}

/// Both parts of the session find that its file is no item.
fn bad_file_is_noted(alloc: Global) -> Result<bool, BrokenOff> {
    let mut place = Place::new(alloc, &[Step::Save(A, MY_A)], &[(A, "hello")])?;
    notes_one(alloc, &mut place)
}

#[test]
fn a_bad_file_is_noted_once(rt: HostRuntime) -> Result<(), Fail> {
    assert!(rt; bad_file_is_noted(rt.alloc())?);
    Ok(())
}

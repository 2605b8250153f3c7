use crate::texts::{A, B, C, F, FOLDER, MY_A, OLD_A, OLD_B, OLD_C, R, RESOURCE, THEIR_A};
use jop_base::Bytes;
use jop_target::MemTarget;
use std::alloc::Global;
use std::test::Fail;
use test_client::{
    BrokenOff, Client, OWN, Part, Place, Standing, Step, Text, holds, place_bytes, target_of,
};

const N: &str = "eeeeeeeeeeeeeeeeeeeeeeeeeeeeeeee";

const NOTE: &str = concat!(
    "N\n\nid: eeeeeeeeeeeeeeeeeeeeeeeeeeeeeeee\n",
    "parent_id: ffffffffffffffffffffffffffffffff\ntype_: 1"
);

/// The first note is edited, and was edited there too; the second note and the resource are new
/// there; the third note and the folder of the last note are gone there.
const STEPS: [Step; 5] = [
    Step::Take(A, OLD_A),
    Step::Take(C, OLD_C),
    Step::Take(N, NOTE),
    Step::Take(F, FOLDER),
    Step::Save(A, MY_A),
];

const FILES: [Text; 4] = [(A, THEIR_A), (B, OLD_B), (R, RESOURCE), (N, NOTE)];

const READ: Standing = Standing {
    rows: &[(A, THEIR_A, false), (B, OLD_B, false), (R, RESOURCE, false)],
    copies: &[(A, MY_A), (N, NOTE)],
};

/// The note of the folder is a conflict note twice.
const TWICE: Standing = Standing {
    rows: &[(A, THEIR_A, false), (B, OLD_B, false), (R, RESOURCE, false)],
    copies: &[(A, MY_A), (N, NOTE), (N, NOTE)],
};

/// The note of the folder is a conflict note, and is there again.
const AGAIN: Standing = Standing {
    rows: &[
        (A, THEIR_A, false),
        (B, OLD_B, false),
        (R, RESOURCE, false),
        (N, NOTE, false),
    ],
    copies: &[(A, MY_A), (N, NOTE)],
};

/// A target with these files, and the bytes of the resource.
fn target_with_bytes(alloc: Global) -> Result<MemTarget, BrokenOff> {
    let bytes = Bytes::from_vec(b"hello".to_vec(alloc)?);
    let mut target = target_of(alloc, FILES.as_slice())?;
    place_bytes(&mut target, R, bytes)?;
    Ok(target)
}

fn make_place(alloc: Global) -> Result<Place, BrokenOff> {
    let target = target_with_bytes(alloc)?;
    let client = Client::after(alloc, OWN, STEPS.as_slice())?;
    Ok(Place { client, target })
}

/// Whether the client has the bytes of the resource.
fn has_bytes(alloc: Global, place: &mut Place) -> Result<bool, BrokenOff> {
    match place.client.bytes(alloc, R)? {
        Some(bytes) => Ok(bytes.as_slice() == b"hello".as_slice()),
        None => Ok(false),
    }
}

/// Whether the target holds what it held, beside a lock.
fn is_untouched(place: &Place) -> Result<bool, BrokenOff> {
    let tree = place.target.tree();
    for (id, text) in FILES {
        if !holds(tree, id, Some(text))? {
            return Ok(false);
        }
    }
    Ok(tree.files.len() == 6)
}

/// Whether the client has read all, with the bytes of the resource.
fn is_read(alloc: Global, place: &mut Place) -> Result<bool, BrokenOff> {
    let context = &place.client.keeper.tables().context;
    let next = context.moment == 1 && context.seen.len() == 4;
    let got = has_bytes(alloc, place)?;
    Ok(next && got && place.has(alloc, &READ)? && is_untouched(place)?)
}

/// Whether a session breaks off, and all comes to the same once another is made.
fn comes_to_the_same(alloc: Global, place: &mut Place) -> Result<bool, BrokenOff> {
    Ok(place.breaks_off_once(alloc, Part::Download) && is_read(alloc, place)?)
}

fn mends(alloc: Global, place: &mut Place, nth: u64, landed: bool) -> Result<bool, BrokenOff> {
    place.target.fail(nth, landed)?;
    comes_to_the_same(alloc, place)
}

fn keeps(alloc: Global, place: &mut Place, nth: u64) -> Result<bool, BrokenOff> {
    place.client.keeper.fail(nth)?;
    comes_to_the_same(alloc, place)
}

/// Whether a call that fails, landed or not, breaks a session off and all comes to the same. Ten
/// calls are made: four for the lease, a listing, four gets of items and one of bytes.
fn is_mended(alloc: Global, nth: u64, landed: bool) -> Result<bool, BrokenOff> {
    let mut place = make_place(alloc)?;
    mends(alloc, &mut place, nth, landed)
}

/// The same of a call of the keeper's store. Six were made before, one for each file that was read and
/// two for the note that was saved; a session reads the tables, saves the bytes, and makes seven
/// changes, each in one call. Behind the move of the last note its folder goes, and it is said how far
/// the target was read.
fn is_kept(alloc: Global, nth: u64) -> Result<bool, BrokenOff> {
    let mut place = make_place(alloc)?;
    keeps(alloc, &mut place, nth)
}

fn reads_all(alloc: Global, place: &mut Place) -> Result<bool, BrokenOff> {
    let done = place.counts(alloc, Part::Download)? == [0, 0, 2, 2, 2, 0];
    Ok(done && is_read(alloc, place)?)
}

fn all_is_read(alloc: Global) -> Result<bool, BrokenOff> {
    let mut place = make_place(alloc)?;
    reads_all(alloc, &mut place)
}

#[test]
fn a_session_reads_all(rt: HostRuntime) -> Result<(), Fail> {
    assert!(rt; all_is_read(rt.alloc())?);
    Ok(())
}

#[test]
fn a_call_that_fails_loses_nothing(rt: HostRuntime) -> Result<(), Fail> {
    let alloc = rt.alloc();
    for nth in 1..=10 {
        assert!(rt; is_mended(alloc, nth, false)?);
        assert!(rt; is_mended(alloc, nth, true)?);
    }
    Ok(())
}

#[test]
fn a_change_that_is_not_kept_is_made_again(rt: HostRuntime) -> Result<(), Fail> {
    let alloc = rt.alloc();
    for nth in 7..=13 {
        assert!(rt; is_kept(alloc, nth)?);
    }
    Ok(())
}

fn comes_to(
    alloc: Global,
    place: &mut Place,
    nth: u64,
    standing: &Standing,
) -> Result<bool, BrokenOff> {
    place.client.keeper.fail(nth)?;
    Ok(place.breaks_off_once(alloc, Part::Download) && place.has(alloc, standing)?)
}

/// Whether this comes of a call of the keeper's store that fails.
fn leaves(alloc: Global, nth: u64, standing: &Standing) -> Result<bool, BrokenOff> {
    let mut place = make_place(alloc)?;
    comes_to(alloc, &mut place, nth, standing)
}

/// A note that has left its folder is new to the client, whose context is the old one yet: so its
/// file is read again.
#[test]
fn a_note_comes_again_if_it_left_its_folder_unread(rt: HostRuntime) -> Result<(), Fail> {
    let alloc = rt.alloc();
    assert!(rt; leaves(alloc, 14, &TWICE)?);
    assert!(rt; leaves(alloc, 15, &AGAIN)?);
    Ok(())
}

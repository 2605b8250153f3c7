ghost use Rattle.std.specs.Prelude.{◌≤◌, ℕ, List};
ghost use Rattle.jop_base.specs.Times.{last_time};
ghost use Rattle.jop_target.specs.Replies.{IsCallable};

use crate::names::{ONES, id, prints};
use crate::texts::bytes_of;
use jop_base::{Bytes, Copied, Dir, Id, MAX_TIME, Path};
use jop_target::{
    BLOB_LIMIT, Call, Diary, Event, FILE_LIMIT, Line, MemStore, MemTarget, Target, TargetLine,
    limit_of,
};
use std::alloc::{AllocError, Global};
use std::test::Fail;

/// A call on one item, or on the root.
#[derive(Clone, Copy)]
enum Step {
    Put(&'static [u8]),
    List,
    Get,
    Delete,
}

/// Makes a call on a line over a target, and tells the last moment heard.
fn ask<T: Target>(
    alloc: Global,
    target: &mut T,
    diary: &mut Diary,
    call: Call,
    blob: &mut Bytes,
) -> Result<u64, AllocError>
    requires { IsCallable call blob.old }
{
    let mut line = TargetLine { target, diary };
    line.call(alloc, call, blob)?;
    Ok(line.heard())
}

fn ask_to_put(
    alloc: Global,
    target: &mut MemTarget,
    diary: &mut Diary,
    id: Id,
    text: &[u8],
    blob: &mut Bytes,
) -> Result<u64, AllocError> {
    let content = bytes_of(alloc, text)?;
    ask(
        alloc,
        target,
        diary,
        Call::Put(Path::Item(id), content),
        blob,
    )
}

/// Takes a step. No blob comes of it.
fn take(
    alloc: Global,
    target: &mut MemTarget,
    diary: &mut Diary,
    id: Id,
    step: Step,
    blob: &mut Bytes,
) -> Result<u64, AllocError> {
    match step {
        Step::Put(text) => ask_to_put(alloc, target, diary, id, text, blob),
        Step::List => ask(alloc, target, diary, Call::List(Dir::Root), blob),
        Step::Get => ask(alloc, target, diary, Call::Get(Path::Item(id)), blob),
        Step::Delete => ask(alloc, target, diary, Call::Delete(Path::Item(id)), blob),
    }
}

/// Whether each step hears its moment.
fn are_heard(
    alloc: Global,
    target: &mut MemTarget,
    diary: &mut Diary,
    id: Id,
    steps: &[(Step, u64)],
) -> Result<bool, AllocError> {
    let mut blob = Bytes::new(alloc);
    for (step, now) in steps {
        if take(alloc, target, diary, id, *step, &mut blob)? != *now {
            return Ok(false);
        }
    }
    Ok(true)
}

/// Whether an event is printed so, and so is its copy.
fn is_printed(alloc: Global, event: &Event, line: &str) -> Result<bool, AllocError> {
    let copy = event.copy(alloc)?;
    Ok(copy == *event && prints(alloc, &copy, line.as_bytes())?)
}

/// Whether the events are printed so, one by one.
fn are(alloc: Global, events: &[Event], lines: &[&str]) -> Result<bool, AllocError> {
    for (event, line) in events.iter().zip(lines) {
        if !is_printed(alloc, event, line)? {
            return Ok(false);
        }
    }
    Ok(events.len() == lines.len())
}

/// Whether each step hears its moment, and these events are written down.
fn are_written(
    alloc: Global,
    target: &mut MemTarget,
    steps: &[(Step, u64)],
    lines: &[&str],
) -> Result<bool, Fail> {
    let mut diary = Diary::new(alloc);
    let heard = are_heard(alloc, target, &mut diary, id(ONES)?, steps)?;
    Ok(heard && are(alloc, diary.events(), lines)?)
}

const STEPS: [(Step, u64); 5] = [
    (Step::Put(b"ab"), 1000),
    (Step::List, 1010),
    (Step::Get, 1020),
    (Step::Delete, 1030),
    (Step::Get, 1040),
];

const LINES: [&str; 5] = [
    "put 11111111111111111111111111111111.md, 2 bytes: done at 1000",
    "list /: listed at 1010, 11111111111111111111111111111111.md of 1000",
    "get 11111111111111111111111111111111.md: got 2 bytes at 1020",
    "delete 11111111111111111111111111111111.md: done at 1030",
    "get 11111111111111111111111111111111.md: absent at 1040",
];

fn calls_are_written_down(alloc: Global) -> Result<bool, Fail> {
    let mut target = MemTarget::new(alloc, 1000, 10);
    are_written(alloc, &mut target, &STEPS, &LINES)
}

#[test]
fn a_call_is_written_down_with_its_reply(rt: HostRuntime) -> Result<(), Fail> {
    assert!(rt; calls_are_written_down(rt.alloc())?);
    Ok(())
}

fn place_item(alloc: Global, target: &mut MemTarget, id: Id) -> Result<(), AllocError> {
    let content = bytes_of(alloc, b"ab")?;
    target.place(Path::Item(id), content, 5)
}

/// The first and the third call fail. The third lands all the same.
fn fail_twice(target: &mut MemTarget) -> Result<(), AllocError> {
    target.fail(1, false)?;
    target.fail(3, true)
}

const PLANNED_STEPS: [(Step, u64); 4] = [
    (Step::Delete, 0),
    (Step::List, 1),
    (Step::Delete, 1),
    (Step::Get, 3),
];

const PLANNED_LINES: [&str; 4] = [
    "delete 11111111111111111111111111111111.md: failed",
    "list /: listed at 1, 11111111111111111111111111111111.md of 5",
    "delete 11111111111111111111111111111111.md: failed",
    "get 11111111111111111111111111111111.md: absent at 3",
];

/// Whether a target that is given an item fails as it is planned then.
fn comes_as_planned(alloc: Global, target: &mut MemTarget) -> Result<bool, Fail> {
    place_item(alloc, target, id(ONES)?)?;
    fail_twice(target)?;
    are_written(alloc, target, &PLANNED_STEPS, &PLANNED_LINES)
}

/// Whether a target that holds an item fails as it was planned.
fn fails_as_planned(alloc: Global) -> Result<bool, Fail> {
    let mut target = MemTarget::new(alloc, 0, 1);
    comes_as_planned(alloc, &mut target)
}

#[test]
fn a_target_fails_when_it_is_planned(rt: HostRuntime) -> Result<(), Fail> {
    assert!(rt; fails_as_planned(rt.alloc())?);
    Ok(())
}

/// The bytes that come back after a blob was put.
fn round_trip<T: Target>(
    alloc: Global,
    target: &mut T,
    diary: &mut Diary,
    id: Id,
) -> Result<Bytes, AllocError> {
    let mut blob = bytes_of(alloc, b"xyz")?;
    let len = blob.len() as u64;
    ask(alloc, target, diary, Call::PutBlob { id, len }, &mut blob)?;
    let mut got = Bytes::new(alloc);
    let mut lent = target;
    ask(alloc, &mut lent, diary, Call::GetBlob(id), &mut got)?;
    Ok(got)
}

const BLOB_LINES: [&str; 2] = [
    "put .resource/11111111111111111111111111111111, 3 bytes: done at 253402300799999",
    "get .resource/11111111111111111111111111111111: got blob of 3 bytes at 253402300799999",
];

/// Whether a blob that was put comes back, over whatever target, and both calls are written down.
fn comes_back<T: Target>(alloc: Global, target: &mut T) -> Result<bool, Fail> {
    let mut diary = Diary::new(alloc);
    let got = round_trip(alloc, target, &mut diary, id(ONES)?)?;
    Ok(got.as_slice() == b"xyz".as_slice() && are(alloc, diary.events(), &BLOB_LINES)?)
}

#[test]
fn a_blob_comes_back(rt: HostRuntime) -> Result<(), Fail> {
    let alloc = rt.alloc();
    let mut target: Box<dyn Target> = Box::new(alloc, MemTarget::new(alloc, u64::MAX, 1))?;
    assert!(rt; comes_back(alloc, &mut target)?);
    Ok(())
}

/// Whether a store answers a call so at this moment.
fn is_answered(
    alloc: Global,
    store: &MemStore,
    call: &Call,
    blob: &mut Bytes,
    now: u64,
    line: &str,
) -> Result<bool, AllocError>
    requires callable { IsCallable call.now blob.old }
    requires early { now ≤ last_time }
{
    let reply = store.answer(alloc, call, blob, now)?;
    prints(alloc, &reply, line.as_bytes())
}

/// The same, and the call lands.
fn lands(
    alloc: Global,
    store: &mut MemStore,
    call: &Call,
    blob: &mut Bytes,
    now: u64,
    line: &str,
) -> Result<bool, AllocError>
    requires callable { (bytes : List ℕ) → IsCallable call.now bytes }
    requires early { now ≤ last_time }
{
    let answered = is_answered(alloc, store, call, blob, now, line)?;
    store.change(alloc, call, blob, now)?;
    Ok(answered)
}

/// A step at a moment, and what it is answered.
#[derive(Clone, Copy)]
struct Asked {
    step: Step,
    now: u64,
    line: &'static str,
}

fn put_lands(
    alloc: Global,
    store: &mut MemStore,
    id: Id,
    text: &[u8],
    blob: &mut Bytes,
    asked: &Asked,
) -> Result<bool, AllocError> {
    let call = Call::Put(Path::Item(id), bytes_of(alloc, text)?);
    lands(
        alloc,
        store,
        &call,
        blob,
        asked.now.min(MAX_TIME),
        asked.line,
    )
}

fn step_lands(
    alloc: Global,
    store: &mut MemStore,
    id: Id,
    blob: &mut Bytes,
    asked: &Asked,
) -> Result<bool, AllocError> {
    let now = asked.now.min(MAX_TIME);
    let path = Path::Item(id);
    match asked.step {
        Step::Put(text) => put_lands(alloc, store, id, text, blob, asked),
        Step::List => lands(alloc, store, &Call::List(Dir::Root), blob, now, asked.line),
        Step::Get => lands(alloc, store, &Call::Get(path), blob, now, asked.line),
        Step::Delete => lands(alloc, store, &Call::Delete(path), blob, now, asked.line),
    }
}

/// The first answer that isn't given as it stands here. None has the empty one.
fn first_other(
    alloc: Global,
    store: &mut MemStore,
    id: Id,
    table: &[Asked],
) -> Result<&'static str, AllocError> {
    let mut blob = Bytes::new(alloc);
    for asked in table {
        if !step_lands(alloc, store, id, &mut blob, asked)? {
            return Ok(asked.line);
        }
    }
    Ok("")
}

const ASKED: [Asked; 5] = [
    Asked {
        step: Step::Get,
        now: 7,
        line: "got 2 bytes at 7",
    },
    Asked {
        step: Step::Put(b"abc"),
        now: 6,
        line: "done at 6",
    },
    Asked {
        step: Step::List,
        now: 6,
        line: "listed at 6, 11111111111111111111111111111111.md of 6",
    },
    Asked {
        step: Step::Delete,
        now: 6,
        line: "done at 6",
    },
    Asked {
        step: Step::Delete,
        now: 5,
        line: "absent at 5",
    },
];

/// The first answer that a store gives otherwise once it has an item, or that it isn't empty then.
fn first_other_in(alloc: Global, store: &mut MemStore, id: Id) -> Result<&'static str, AllocError> {
    store.place(Path::Item(id), bytes_of(alloc, b"ab")?, 9)?;
    let other = first_other(alloc, store, id, &ASKED)?;
    Ok(if store.tree().files.is_empty() {
        other
    } else {
        "not empty"
    })
}

fn first_other_of_one(alloc: Global, id: Id) -> Result<&'static str, AllocError> {
    let mut store = MemStore::new(alloc);
    first_other_in(alloc, &mut store, id)
}

#[test]
fn a_store_answers_at_any_moment(rt: HostRuntime) -> Result<(), Fail> {
    assert_eq!(rt; first_other_of_one(rt.alloc(), id(ONES)?)?, "");
    Ok(())
}

#[test]
fn room_that_is_reserved_is_there(rt: HostRuntime) -> Result<(), Fail> {
    let mut diary = Diary::new(rt.alloc());
    diary.begin()?;
    diary.reserve()?;
    diary.made(7)?;
    diary.end()?;
    assert!(rt; are(rt.alloc(), diary.events(), &["began", "made 7", "ended"])?);
    Ok(())
}

#[test]
fn a_blob_may_be_longer_than_a_file(rt: HostRuntime) -> Result<(), Fail> {
    assert_eq!(rt; limit_of(&Path::Blob(id(ONES)?)), BLOB_LIMIT);
    assert_eq!(rt; limit_of(&Path::Info), FILE_LIMIT);
    Ok(())
}

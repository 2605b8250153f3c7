use crate::steps::{Step, host, reply_to, tells};
use dav_server::LoopLink;
use jop_base::{Bytes, Dir};
use jop_target::{MemTarget, Target};
use std::alloc::{AllocError, Global};
use std::test::Fail;
use target_dav::DavTarget;

const STEPS: [Step; 14] = [
    Step::Get,
    Step::GetBlob,
    Step::List(Dir::Locks),
    Step::Make,
    Step::Make,
    Step::Put,
    Step::Put,
    Step::Get,
    Step::PutBlob,
    Step::GetBlob,
    Step::List(Dir::Root),
    Step::List(Dir::Resources),
    Step::Delete,
    Step::Delete,
];

/// A target whose link leads to a server of a target in memory.
fn looped(alloc: Global) -> Result<DavTarget<LoopLink>, AllocError> {
    let host = host(alloc)?;
    let link = LoopLink::new(alloc, MemTarget::new(alloc, 0, 1_000));
    Ok(DavTarget::new(link, host))
}

/// One whose read or write of this number fails.
fn failing(alloc: Global, nth: u64) -> Result<DavTarget<LoopLink>, AllocError> {
    let mut target = looped(alloc)?;
    target.link.fail(nth)?;
    Ok(target)
}

/// Whether two targets answer a step with the same reply, with these bytes beside it.
fn reply_alike<T: Target, U: Target>(
    alloc: Global,
    one: &mut T,
    other: &mut U,
    step: Step,
    blobs: (&mut Bytes, &mut Bytes),
) -> Result<bool, Fail> {
    let reply = reply_to(alloc, one, step, blobs.0)?;
    let other_reply = reply_to(alloc, other, step, blobs.1)?;
    Ok(reply == other_reply)
}

/// The same, and whether they leave the same bytes.
fn answer_alike<T: Target, U: Target>(
    alloc: Global,
    one: &mut T,
    other: &mut U,
    step: Step,
) -> Result<bool, Fail> {
    let mut blob = step.blob(alloc)?;
    let mut other_blob = step.blob(alloc)?;
    let alike = reply_alike(alloc, one, other, step, (&mut blob, &mut other_blob))?;
    Ok(alike && blob == other_blob)
}

/// Takes the steps. How many are answered as by a target that stands alone, until one isn't.
fn count_alike(
    alloc: Global,
    alone: &mut MemTarget,
    target: &mut DavTarget<LoopLink>,
) -> Result<usize, Fail> {
    for (count, step) in STEPS.into_iter().enumerate() {
        if !answer_alike(alloc, alone, target, step)? {
            return Ok(count);
        }
    }
    Ok(STEPS.len())
}

/// Whether all are, without a fault, and each makes one event.
fn is_alike(alloc: Global, target: &mut DavTarget<LoopLink>) -> Result<bool, Fail> {
    let mut alone = MemTarget::new(alloc, 0, 1_000);
    let count = count_alike(alloc, &mut alone, target)?;
    let events = target.link.diary.events().len();
    Ok(count == STEPS.len() && target.faults() == 0 && events == STEPS.len())
}

fn loops(alloc: Global) -> Result<bool, Fail> {
    let mut target = looped(alloc)?;
    is_alike(alloc, &mut target)
}

#[test]
fn the_loop_answers_as_its_target(rt: HostRuntime) -> Result<(), Fail> {
    assert!(rt; loops(rt.alloc())?);
    Ok(())
}

/// Whether a get fails, and two that follow don't.
fn fails_once(alloc: Global, target: &mut DavTarget<LoopLink>) -> Result<bool, Fail> {
    for wanted in ["failed", "absent at 0", "absent at 1000"] {
        if !tells(alloc, target, Step::Get, wanted)? {
            return Ok(false);
        }
    }
    Ok(target.faults() == 1)
}

fn is_failed(alloc: Global) -> Result<bool, Fail> {
    let mut target = failing(alloc, 2)?;
    fails_once(alloc, &mut target)
}

#[test]
fn a_fault_of_the_loop_is_failed(rt: HostRuntime) -> Result<(), Fail> {
    assert!(rt; is_failed(rt.alloc())?);
    Ok(())
}

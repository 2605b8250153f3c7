ghost use Rattle.std.specs.Prelude.{[], IsTrue};
ghost use Rattle.jop_target.specs.Replies.{IsCallable};

use crate::step::Step;
use jop_base::{Bytes, Path};
use jop_target::{Call, Listing, Reply, Target};
use std::alloc::{AllocError, Global};
use std::test::Fail;

fn add_name(alloc: Global, names: &mut String, path: &Path) -> Result<(), AllocError> {
    let name = path.text(alloc)?;
    names.push(' ')?;
    names.push_str(name.as_str())
}

fn listed(alloc: Global, listing: &Listing) -> Result<String, AllocError> {
    let mut names = String::from_str(alloc, "listed")?;
    for entry in listing.entries.as_slice() {
        add_name(alloc, &mut names, &entry.path)?;
    }
    Ok(names)
}

/// What a reply says, times aside.
fn told(alloc: Global, reply: &Reply) -> Result<String, AllocError> {
    match reply {
        Reply::Listed(listing) => listed(alloc, listing),
        Reply::Got { content, .. } => format!(in alloc; "got {:?}", content.as_slice()),
        Reply::GotBlob { len, .. } => format!(in alloc; "got blob {len}"),
        Reply::Absent { .. } => String::from_str(alloc, "absent"),
        Reply::Done { .. } => String::from_str(alloc, "done"),
        Reply::Failed => String::from_str(alloc, "failed"),
        Reply::TooLarge { len } => format!(in alloc; "too large {len}"),
    }
}

/// Whether a call may be made with a blob of so many bytes beside it.
fn is_callable(call: &Call, blob: &Bytes) -> bool
    ensures { IsTrue result → IsCallable call.now blob.now }
{
    match call {
        Call::Get(path) | Call::Put(path, _) => !matches!(path, Path::Blob(_)),
        Call::PutBlob { len, .. } => *len == blob.len() as u64,
        _ => true,
    }
}

/// The reply to a step.
pub(crate) fn reply_to<T: Target>(
    alloc: Global,
    target: &mut T,
    step: Step,
    blob: &mut Bytes,
) -> Result<Reply, Fail> {
    let call = step.call(alloc)?;
    if !is_callable(&call, blob) {
        return Err(Fail::new("no call to make"));
    }
    Ok(target.call(alloc, &call, blob)?)
}

/// What a step is answered.
fn answer<T: Target>(
    alloc: Global,
    target: &mut T,
    step: Step,
    blob: &mut Bytes,
) -> Result<String, Fail> {
    let reply = reply_to(alloc, target, step, blob)?;
    Ok(told(alloc, &reply)?)
}

/// What a step is answered, and the bytes of a blob that it got, on a line.
pub(crate) fn ask<T: Target>(alloc: Global, target: &mut T, step: Step) -> Result<String, Fail> {
    let mut blob = step.blob(alloc)?;
    let said = answer(alloc, target, step, &mut blob)?;
    match step {
        Step::GetBlob => Ok(format!(in alloc; "{said} {:?}\n", blob.as_slice())?),
        _ => Ok(format!(in alloc; "{said}\n")?),
    }
}

/// What steps in a row are answered, a line each.
pub(crate) fn ask_all<T: Target>(
    alloc: Global,
    target: &mut T,
    steps: &[Step],
) -> Result<String, Fail> {
    let mut said = String::new(alloc);
    for step in steps {
        said.push_str(ask(alloc, target, *step)?.as_str())?;
    }
    Ok(said)
}

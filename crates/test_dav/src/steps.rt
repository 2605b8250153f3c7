ghost use Rattle.std.specs.Prelude.{IsTrue};
ghost use Rattle.jop_target.specs.Replies.{IsCallable};

use jop_base::{Bytes, Dir, Id, Path, Text};
use jop_target::{Call, Reply, Target};
use std::alloc::{AllocError, Global};
use std::test::Fail;

const ONES: &[u8] = b"11111111111111111111111111111111";

/// A call of each kind, all of one file or folder of its kind.
#[derive(Clone, Copy)]
pub(crate) enum Step {
    Make,
    List(Dir),
    Put,
    Get,
    Delete,
    PutBlob,
    GetBlob,
}

pub(crate) fn host(alloc: Global) -> Result<Text, AllocError> {
    Text::of(alloc, "localhost:80")
}

pub(crate) fn bytes(alloc: Global, text: &[u8]) -> Result<Bytes, AllocError> {
    Ok(Bytes::from_vec(text.to_vec(alloc)?))
}

fn id() -> Result<Id, Fail> {
    Ok(Id::read(ONES).ok_or("an id")?)
}

fn put(alloc: Global, id: Id) -> Result<Call, AllocError> {
    let content = bytes(alloc, b"content")?;
    Ok(Call::Put(Path::Item(id), content))
}

impl Step {
    fn call(self, alloc: Global, id: Id) -> Result<Call, AllocError> {
        match self {
            Step::Make => Ok(Call::MakeDir(Dir::Locks)),
            Step::List(dir) => Ok(Call::List(dir)),
            Step::Put => put(alloc, id),
            Step::Get => Ok(Call::Get(Path::Item(id))),
            Step::Delete => Ok(Call::Delete(Path::Item(id))),
            Step::PutBlob => Ok(Call::PutBlob { id, len: 4 }),
            Step::GetBlob => Ok(Call::GetBlob(id)),
        }
    }

    /// The bytes that travel beside the call.
    pub(crate) fn blob(self, alloc: Global) -> Result<Bytes, AllocError> {
        match self {
            Step::PutBlob => bytes(alloc, b"blob"),
            _ => Ok(Bytes::new(alloc)),
        }
    }
}

/// Whether a call may be made with a blob of so many bytes beside it.
fn is_callable(call: &Call, blob: &Bytes) -> bool
    ensures { IsTrue result → IsCallable call.now blob.now }
{
    match call {
        Call::Get(path) | Call::Put(path, _) => !matches!(path, Path::Blob(_)),
        Call::PutBlob { len, .. } => *len == blob.len() as u64,
        _ => true,
    }
}

/// What a target answers to a step. The bytes that then stand beside it are left in `blob`.
pub(crate) fn reply_to<T: Target>(
    alloc: Global,
    target: &mut T,
    step: Step,
    blob: &mut Bytes,
) -> Result<Reply, Fail> {
    let call = step.call(alloc, id()?)?;
    if !is_callable(&call, blob) {
        return Err(Fail::new("no call to make"));
    }
    Ok(target.call(alloc, &call, blob)?)
}

/// The line that tells what a target answers.
fn told<T: Target>(alloc: Global, target: &mut T, step: Step) -> Result<String, Fail> {
    let mut blob = step.blob(alloc)?;
    let reply = reply_to(alloc, target, step, &mut blob)?;
    Ok(reply.to_string(alloc)?)
}

/// Whether it is this one.
pub(crate) fn tells<T: Target>(
    alloc: Global,
    target: &mut T,
    step: Step,
    wanted: &str,
) -> Result<bool, Fail> {
    let said = told(alloc, target, step)?;
    Ok(said.as_str() == wanted)
}

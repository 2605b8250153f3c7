ghost use Rattle.jop_target.specs.Replies.{IsCallable};
ghost use Rattle.std.specs.Prelude.{IfOk, List, ℕ};

use jop_base::{Bytes, Dir, Path};
use jop_target::{Call, Diary, Line, Target, TargetLine};
use std::alloc::{AllocError, Global};

/// A call that a client of the tests makes.
#[derive(Clone, Copy, Debug)]
pub(crate) enum Deed {
    Make,
    Put,
    Get,
}

/// One byte.
pub(crate) fn content(alloc: Global) -> Result<Bytes, AllocError> {
    let mut bytes = Bytes::new(alloc);
    bytes.push(b'a')?;
    Ok(bytes)
}

impl Deed {
    pub(crate) fn call(self, alloc: Global) -> Result<Call, AllocError>
        ensures { IfOk result (λ call. (blob : List ℕ) → IsCallable call blob) }
    {
        match self {
            Deed::Make => Ok(Call::MakeDir(Dir::Locks)),
            Deed::Put => Ok(Call::Put(Path::Info, content(alloc)?)),
            Deed::Get => Ok(Call::Get(Path::Info)),
        }
    }
}

/// Makes these calls at a target, and writes them down.
pub(crate) fn make_all<T: Target>(
    alloc: Global,
    target: &mut T,
    deeds: &[Deed],
    diary: &mut Diary,
) -> Result<(), AllocError> {
    let mut line = TargetLine { target, diary };
    for deed in deeds {
        let call = deed.call(alloc)?;
        line.call(alloc, call, &mut Bytes::new(alloc))?;
    }
    Ok(())
}

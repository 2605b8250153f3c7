ghost use Rattle.std.specs.Prelude.{IfOk};
ghost use Rattle.jop_target.specs.Replies.{TargetNow, IsCallable, IsReplyTo, HasReplyCause, Answers, KeepsBlob, contents_in};

use crate::call::Call;
use crate::reply::Reply;
use jop_base::Bytes;
use std::alloc::{AllocError, Global};

/// A store of files that does nothing by itself: a folder, a server, a list in memory.
pub trait Target: Drop {
    /// What it holds, if it tells, and how often it has failed. At 2^64 - 1 the count stays.
    ghost state: { Self → TargetNow };

    /// Answers a call. `Get` and `Put` name no blob. For `PutBlob` the bytes are those in `blob`,
    /// whose number is `len`; `GetBlob` that answers `GotBlob` leaves them there, and every other
    /// call leaves `blob` as it was.
    fn call(&mut self, alloc: Global, call: &Call, blob: &mut Bytes) -> Result<Reply, AllocError>
        requires { IsCallable call.now blob.old }

        // Asked of every target, real ones too.
        ensures shape { IfOk result (λ reply. IsReplyTo call.now reply) }
        ensures cause { HasReplyCause (state self.old).faults result (state self.new).faults }

        // Asked if the target tells what it holds.
        ensures answers { Answers (state self.old).store call.now blob.old result (state self.new).store }

        ensures blob { KeepsBlob (contents_in (state self.old).store) call.now blob.old result blob.new };
}

impl Target for Box<dyn Target> {
    ghost state = { λ b. (Target-box b).state b.value };

    fn call(&mut self, alloc: Global, call: &Call, blob: &mut Bytes) -> Result<Reply, AllocError> {
        (**self).call(alloc, call, blob)
    }
}

impl<T: Target> Target for &mut T {
    ghost state = { λ t. T.state t.now };

    fn call(&mut self, alloc: Global, call: &Call, blob: &mut Bytes) -> Result<Reply, AllocError> {
        (**self).call(alloc, call, blob)
    }
}

ghost use Rattle.std.specs.Prelude.{◌≡◌};
ghost use Rattle.jop_target.specs.Replies.{IsCallable};
ghost use Rattle.jop_target.specs.Trail.{Asks, EndsWith, LineNow, last_moment};

use crate::call::Call;
use crate::reply::Reply;
use jop_base::Bytes;
use std::alloc::{AllocError, Global};

/// A target whose calls are written down.
pub trait Line {
    /// What was done, and the target.
    ghost state: { Self → LineNow };

    /// What each call leaves as it was.
    ghost keeps: { Self → Self → Type 0 };

    /// Writes down the call, asks the target, and writes down its reply. Out of memory, the target
    /// was not asked, or the call stands there without a reply.
    fn call(&mut self, alloc: Global, call: Call, blob: &mut Bytes) -> Result<(), AllocError>
        requires { IsCallable call blob.old }
        ensures asks { Asks (state self.old) call blob.old result (state self.new) blob.new }
        ensures keeps { keeps self.old self.new };

    /// The last reply.
    fn last(&self) -> &Reply
        requires { (call : _) × (reply : _) × EndsWith (state self.now).trail call reply }
        ensures { (call : _) (reply : _) →
            EndsWith (state self.now).trail call reply → result.now ≡ reply };

    /// The last moment that the last session was told, in milliseconds since 1970; 0 before the
    /// first.
    fn heard(&self) -> u64
        ensures { result ≡ last_moment (state self.now).trail };

    ghost keeps_same: { (a : Self) → keeps a a };

    ghost keeps_on: { (a b c : Self) → keeps a b → keeps b c → keeps a c };
}

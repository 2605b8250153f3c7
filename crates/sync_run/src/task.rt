ghost use Rattle.std.specs.Prelude.{List, Result, ℕ};
ghost use Rattle.jop_target.specs.declared.event.Event.{Event};
ghost use Rattle.lease.specs.WholeSession.{IsInner};
ghost use Rattle.sync_run.specs.Ordering.{GoesInOrder};
ghost use Rattle.sync_run.specs.Sessions.{HasBegun, RunsTask};
ghost use Rattle.sync_run.specs.declared.session_err.SessionErr.{SessionErr};

use crate::session_err::SessionErr;
use jop_base::ClientId;
use jop_target::Line;
use std::alloc::Global;

/// What a session does, from taking its lock to deleting it.
pub(crate) trait Task {
    /// What it answers once all is done.
    type Answer: Copy;

    /// The calls that it makes for a client.
    ghost calls: { List ℕ → Event → Type 0 };

    /// What the calls of a client have come to when it answers so.
    ghost answers: { List ℕ → List Event → Result Self.Answer SessionErr → Type 0 };

    /// Does it for the client, in a session that has begun.
    fn run<L: Line>(
        alloc: Global,
        line: &mut L,
        client: &ClientId,
    ) -> Result<Self::Answer, SessionErr>
        requires { HasBegun client.now (L.state line.old).trail }
        ensures runs { RunsTask
            calls answers client.now (L.state line.old) (L.state line.new) result }
        // The refusal that its calls call for is given, and nothing is called behind them.
        ensures order { GoesInOrder (L.state line.old).trail result (L.state line.new).trail }
        ensures keeps { L.keeps line.old line.new };

    ghost inner: { (client : List ℕ) (event : Event) → calls client event → IsInner event };
}

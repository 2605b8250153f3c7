ghost use Rattle.sync_run.specs.Ordering.{AddsTaskInOrder, GoesInOrder};
ghost use Rattle.sync_run.specs.Sessions.{AddsTask, EndsAs, GoesBy, HasBegun, RunsBy};

use crate::session_err::{SessionErr, has_ended};
use crate::task::Task;
use jop_base::ClientId;
use jop_target::{Diary, Target, TargetLine};
use std::alloc::Global;

/// Makes a session of this task, and writes down where it begins and ends.
pub(crate) fn make_session<W: Task, T: Target>(
    alloc: Global,
    target: &mut T,
    client: &ClientId,
    diary: &mut Diary,
) -> Result<W::Answer, SessionErr>
    ensures session { AddsTask W.calls W.answers client.now diary.old.events diary.new.events result }
    ensures line { GoesBy W.calls client.now diary.old.events diary.new.events (T.state target.old)
        (T.state target.new) }
    ensures order { AddsTaskInOrder diary.old.events result diary.new.events }
{
    diary.begin()?;
    let outcome = hold::<W, T>(alloc, target, client, diary);
    if has_ended(&outcome) {
        diary.end()?;
    }
    outcome
}

/// Does the task, in a session that has begun.
fn hold<W: Task, T: Target>(
    alloc: Global,
    target: &mut T,
    client: &ClientId,
    diary: &mut Diary,
) -> Result<W::Answer, SessionErr>
    requires { HasBegun client.now diary.old.events }
    ensures runs { RunsBy W.calls client.now diary.old.events diary.new.events (T.state target.old)
        (T.state target.new) }
    ensures ends { EndsAs W.answers client.now diary.old.events diary.new.events result }
    ensures order { GoesInOrder diary.old.events result diary.new.events }
{
    let mut line = TargetLine { target, diary };
    W::run(alloc, &mut line, client)
}

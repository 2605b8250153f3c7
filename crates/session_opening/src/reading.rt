ghost use Rattle.std.specs.Prelude.{◌≡◌};
ghost use Rattle.jop_base.specs.declared.lock_name.LockKind.TheVariants.{Sync};
ghost use Rattle.jop_base.specs.declared.path.Path.TheVariants.{Info as InfoFile};
ghost use Rattle.jop_target.specs.declared.call.Call.TheVariants.{Get};
ghost use Rattle.session_opening.specs.Opening.{IsTakenInfo, ReadsOldOr, ReadsOr, TellsInfo};
ghost use Rattle.session_opening.specs.Headway.{GetsSo, Unread, headway_in};
ghost use Rattle.session_opening.specs.Verdict.{AwaitsInfo, AwaitsOldFile, EndsInOrder, EndsOldFile, verdict_in};
ghost use Rattle.session.specs.Asking.{IsAnswer};
ghost use Rattle.session.specs.Work.{IsAtWork};
ghost use Rattle.sync_info.specs.declared.info.Info.{Info};

use conflicts::{Refusal, StepErr};
use jop_base::Path;
use jop_target::{Call, Reply};
use session::Session;
use std::alloc::Global;
use sync_info::{Info, InfoErr, read_info};
use target_upgrade::SUPPORTED;

/// The info that `info.json` holds, if it is there.
fn told(alloc: Global, reply: &Reply) -> Result<Option<Info>, StepErr>
    requires { IsAnswer (Get InfoFile) reply.now }
    ensures { TellsInfo reply.now result }
{
    match reply {
        Reply::Absent { now: _ } => Ok(None),
        Reply::Got { now: _, content } => match read_info(alloc, content.as_slice()) {
            Ok(info) => Ok(Some(info)),
            Err(InfoErr::Bad(_)) => Err(StepErr::Refused(Refusal::BadInfo)),
            Err(InfoErr::NoMemory) => Err(StepErr::NoMemory),
        },
        _ => Err(StepErr::Refused(Refusal::BadInfo)),
    }
}

/// The info, if its version is the supported one.
fn supported(info: Info) -> Result<Info, StepErr>
    ensures { IsTakenInfo info result }
{
    if info.version < SUPPORTED {
        return Err(StepErr::Refused(Refusal::TargetOlder(info.version)));
    }
    if info.version > SUPPORTED {
        return Err(StepErr::Refused(Refusal::TargetNewer(info.version)));
    }
    Ok(info)
}

/// The version of a target without an info: 1 if `.sync/version.txt` is there in any form, and else 0.
fn read_old<W: Session>(alloc: Global, s: &mut W) -> Result<u64, StepErr>
    requires ready { IsAtWork (W.now s.old) }

    ensures reads { ReadsOldOr (W.now s.old) result (W.now s.new) }
    ensures order { verdict_in (W.now s.old) ≡ AwaitsOldFile
        → EndsOldFile result (verdict_in (W.now s.new)) }
{
    s.ask(alloc, Call::Get(Path::OldVersion))?;
    match s.last() {
        Reply::Absent { now: _ } => Ok(0),
        _ => Ok(1),
    }
}

/// Reads the target's info, which is one of the supported version.
pub(crate) fn read_supported<W: Session>(alloc: Global, s: &mut W) -> Result<Info, StepErr>
    requires ready { IsAtWork (W.now s.old) }
    requires sync { (W.now s.old).lease.kind ≡ Sync }

    ensures reads { ReadsOr (W.now s.old) result (W.now s.new) }
    ensures order { verdict_in (W.now s.old) ≡ AwaitsInfo
        → EndsInOrder result (verdict_in (W.now s.new)) }
    ensures progress { (own : Info) → headway_in own (W.now s.old) ≡ Unread
        → GetsSo own result (headway_in own (W.now s.new)) }
{
    s.ask(alloc, Call::Get(Path::Info))?;
    match told(alloc, s.last())? {
        Some(info) => supported(info),
        None => Err(StepErr::Refused(Refusal::TargetOlder(read_old(alloc, s)?))),
    }
}

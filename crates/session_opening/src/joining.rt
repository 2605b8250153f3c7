ghost use Rattle.std.specs.Prelude.{◌≡◌, Bool, IfErr};
ghost use Rattle.jop_target.specs.declared.call.Call.{Call};
ghost use Rattle.session_opening.specs.Opening.{EndsMerging, IsMerge, IsRead, Joins, PutsInfo, SetsInfo};
ghost use Rattle.session_opening.specs.Headway.{JustGot, IsSetInVain, OpensSo, headway_in};
ghost use Rattle.session.specs.Doing.{Ends};
ghost use Rattle.session.specs.Work.{IsAtWork};
ghost use Rattle.sync_info.specs.Merge.{merged};
ghost use Rattle.sync_info.specs.declared.info.Info.{Info};

use conflicts::StepErr;
use jop_base::Path;
use jop_target::Call;
use local_store::Change;
use session::Session;
use std::alloc::Global;
use sync_info::{Info, merge, write_info};

/// Puts the merge, if it differs from the info that was read.
fn put_info<W: Session>(alloc: Global, s: &mut W, info: &Info, remote: &Info) -> Result<(), StepErr>
    requires ready { IsAtWork (W.now s.old) }
    requires merge { IsMerge info.now remote.now (W.now s.old).site }

    ensures ends { EndsMerging (PutsInfo info.now remote.now) (W.now s.old) result (W.now s.new) }
    ensures progress { (own : Info) → headway_in own (W.now s.old) ≡ JustGot info.now remote.now
        → OpensSo own info.now result (headway_in own (W.now s.new)) }
{
    if info.is_same(remote) {
        return Ok(());
    }
    let text = write_info(alloc, info)?;
    s.ask(alloc, Call::Put(Path::Info, text))
}

/// Makes the merge the client's own info, if it differs from that.
fn set_info<W: Session>(alloc: Global, s: &mut W, info: Info) -> Result<(), StepErr>
    requires ready { IsAtWork (W.now s.old) }
    requires merge { (remote : Info) × IsMerge info remote (W.now s.old).site }

    // It makes no call, so this holds of every sort.
    ensures ends { (sort : Call → Bool)
        → Ends (SetsInfo info) sort (W.now s.old) result (W.now s.new) }
    ensures fails { IfErr result (IsSetInVain info (W.now s.old).site.tables.info) }
{
    if info.is_same(&s.tables().info) {
        return Ok(());
    }
    s.make(alloc, Change::InfoIs(info))
}

/// Makes one of the info that was read and the client's own: on the target first, and then here.
pub(crate) fn join_info<W: Session>(alloc: Global, s: &mut W, remote: &Info) -> Result<(), StepErr>
    requires ready { IsAtWork (W.now s.old) }
    requires read { IsRead remote.now (W.now s.old).site }

    ensures ends { EndsMerging (Joins remote.now) (W.now s.old) result (W.now s.new) }
    ensures progress { let own = (W.now s.old).site.tables.info in
        headway_in own (W.now s.old) ≡ JustGot (merged own remote.now) remote.now
        → OpensSo own (merged own remote.now) result (headway_in own (W.now s.new)) }
{
    let info = merge(alloc, &s.tables().info, remote)?;
    put_info(alloc, s, &info, remote)?;
    set_info(alloc, s, info)
}

ghost use Rattle.std.specs.Prelude.{◌≡◌, OnOk};
ghost use Rattle.jop_base.specs.declared.lock_name.LockKind.TheVariants.{Sync};
ghost use Rattle.session_opening.specs.Opening.{IsLawful, KnowsVersion, MergesBetween, OpensOr};
ghost use Rattle.session_opening.specs.Headway.{OpensSo, Unread, headway_in};
ghost use Rattle.session_opening.specs.Verdict.{AwaitsInfo, EndsInOrder, verdict_in};
ghost use Rattle.session.specs.Work.{IsAtWork};

use crate::joining::join_info;
use crate::reading::read_supported;
use conflicts::StepErr;
use session::Session;
use std::alloc::Global;

/// Opens a session under a sync lease: reads the target's info, which is of the supported version,
/// and makes one of it and the client's own, on the target and here. If there is no `info.json`,
/// the version is 1 if `.sync/version.txt` is there in any form, and else 0. It is refused by a target of another
/// version, or if its info can't be read.
pub fn open_session<W: Session>(alloc: Global, s: &mut W) -> Result<(), StepErr>
    requires ready { IsAtWork (W.now s.old) }
    requires sync { (W.now s.old).lease.kind ≡ Sync }
    requires lawful { IsLawful (W.now s.old).lease (W.now s.old).site }

    ensures opens { OpensOr (W.now s.old) result (W.now s.new) }
    ensures lawful { IsLawful (W.now s.new).lease (W.now s.new).site }
    ensures told { OnOk result (KnowsVersion (W.now s.new).lease (W.now s.new).site) }
    // If it had called nothing, it calls no more than is due, and gives the refusal that its calls call for.
    ensures order { verdict_in (W.now s.old) ≡ AwaitsInfo
        → EndsInOrder result (verdict_in (W.now s.new)) }
    // It calls nothing behind that by which the target has the merge; and where the target has it, it has opened the
    // session, but for want of memory, or where the keeper failed at the client's own info.
    ensures progress { let own = (W.now s.old).site.tables.info in
        headway_in own (W.now s.old) ≡ Unread
        → OpensSo own (W.now s.new).site.tables.info result (headway_in own (W.now s.new)) }
    ensures merges { MergesBetween (W.now s.old).site (W.now s.new).site }
{
    let remote = read_supported(alloc, s)?;
    join_info(alloc, s, &remote)?;
    Ok(())
}

ghost use Rattle.download.specs.Emptied.{HeedsBetween};
ghost use Rattle.session_opening.specs.Opening.{IsLawful, MergesBetween};
ghost use Rattle.sync_session.specs.Ordering.{GivesDue, RunsByKey, RunsInOrder};
ghost use Rattle.sync_session.specs.Working.{StartsSync, SyncWorks};

use crate::exchanging::exchange;
use crate::keys::key_refusal;
use crate::sync_err::SyncErr;
use session::Session;
use session_opening::open_session;
use std::alloc::Global;

/// Does what a sync does under its lease.
pub(crate) fn work<W: Session>(alloc: Global, s: &mut W) -> Result<(), SyncErr>
    requires starts { StartsSync (W.now s.old).site (W.now s.old).lease }

    ensures ends { SyncWorks (W.now s.old) result (W.now s.new) }
    // Nothing is called that isn't due, and the refusal that is due is given.
    ensures order { RunsInOrder result (W.now s.new).site }
    ensures key { RunsByKey (W.now s.old).site.tables result (W.now s.new).site }
    // Behind what looks like an emptied target nothing is done, and its refusal is given.
    ensures emptied { HeedsBetween (GivesDue result) (W.now s.old).site (W.now s.new).site }
    ensures merges { MergesBetween (W.now s.old).site (W.now s.new).site }
    ensures lawful { IsLawful (W.now s.new).lease (W.now s.new).site }
{
    open_session(alloc, s)?;
    if let Some(why) = key_refusal(s.tables()) {
        return Err(SyncErr::Refused(why));
    }
    exchange(alloc, s)?;
    Ok(())
}

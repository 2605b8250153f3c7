ghost use Rattle.std.specs.Prelude.{OnOk};
ghost use Rattle.download.specs.Emptied.{HeedsBetween, RefusesStep};
ghost use Rattle.session.specs.Doing.{Ends};
ghost use Rattle.upload.specs.Conditions.{CanUpload};
ghost use Rattle.sync_session.specs.Working.{ExchangesOr, LeavesNothing, Sends, is_sending};

use conflicts::StepErr;
use download::apply_listed;
use session::Session;
use std::alloc::Global;
use upload::{delete_listed, upload_waiting};

/// Uploads what was saved here, and deletes what was removed here.
fn send<W: Session>(alloc: Global, s: &mut W) -> Result<(), StepErr>
    requires can { CanUpload (W.now s.old) }

    ensures ends { Ends (Sends (W.now s.old).site.keeper.kept) is_sending (W.now s.old) result
        (W.now s.new) }
    ensures nothing { OnOk result (LeavesNothing (W.now s.new).site) }
{
    upload_waiting(alloc, s)?;
    delete_listed(alloc, s)
}

/// Uploads what was saved here, deletes what was removed here, and reads what others have done.
pub(crate) fn exchange<W: Session>(alloc: Global, s: &mut W) -> Result<(), StepErr>
    requires can { CanUpload (W.now s.old) }

    ensures ends { ExchangesOr (W.now s.old) result (W.now s.new) }
    ensures emptied { HeedsBetween (RefusesStep result) (W.now s.old).site (W.now s.new).site }
{
    send(alloc, s)?;
    apply_listed(alloc, s)
}

ghost use Rattle.std.specs.Prelude.{OnOk};
ghost use Rattle.session.specs.Doing.{Ends};
ghost use Rattle.session.specs.declared.finding.Finding.TheVariants.{Missing};
ghost use Rattle.upload.specs.Found.{HasFoundFile, IsFoundForRow};
ghost use Rattle.upload.specs.Uploading.{Clears, is_upload};

use conflicts::{StepErr, folder_gone_changes};
use local_store::{Row, is_folder};
use session::Session;
use std::alloc::Global;

/// Moves the notes out of a row whose file is gone, if it is a folder.
pub(crate) fn clear<W: Session>(alloc: Global, s: &mut W, row: &Row) -> Result<(), StepErr>
    requires found { HasFoundFile row.now Missing (W.now s.old) }

    ensures ends { Ends (Clears row.now) is_upload (W.now s.old) result (W.now s.new) }
    ensures found { OnOk result (IsFoundForRow row.now Missing (W.now s.new).site) }
{
    if !is_folder(row) {
        return Ok(());
    }
    let moves = folder_gone_changes(alloc, s.tables(), &row.id)?;
    s.make_each(alloc, moves.as_slice())
}

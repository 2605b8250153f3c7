ghost use Rattle.std.specs.Prelude.{None};
ghost use Rattle.session.specs.Doing.{Ends};
ghost use Rattle.session.specs.Parts.{Then};
ghost use Rattle.session.specs.declared.finding.Finding.TheVariants.{Missing, Other};
ghost use Rattle.upload.specs.Found.{HasFoundFile, HasSeenFile, MayYield};
ghost use Rattle.upload.specs.Uploading.{Clears, Yields, YieldsTo, is_upload};

use crate::moving::clear;
use conflicts::{StepErr, conflict_change};
use jop_base::Bytes;
use local_store::{Content, Row};
use session::{Session, fetch_bytes_of};
use std::alloc::Global;

/// Lets a row give way to what its file holds, or to nothing.
pub(crate) fn give_way<W: Session>(
    alloc: Global,
    s: &mut W,
    row: &Row,
    remote: Option<(Bytes, Content)>,
) -> Result<(), StepErr>
    requires may { MayYield row.now remote (W.now s.old) }

    ensures ends { Ends (Yields row.now remote) is_upload (W.now s.old) result (W.now s.new) }
{
    s.make(alloc, conflict_change(row, remote))
}

/// Lets a row give way to another file. Of a resource the bytes come first, so that those that are kept are the ones of
/// the item that the row then has.
pub(crate) fn give_way_to<W: Session>(
    alloc: Global,
    s: &mut W,
    row: &Row,
    remote: (Bytes, Content),
) -> Result<(), StepErr>
    requires seen { HasSeenFile row.now (Other remote) (W.now s.old) }

    ensures ends { Ends (YieldsTo row.now remote) is_upload (W.now s.old) result (W.now s.new) }
{
    fetch_bytes_of(alloc, s, &row.id, &remote.1)?;
    give_way(alloc, s, row, Some(remote))
}

/// Lets a row go whose file is gone, and before it the notes in it, if it is a folder.
pub(crate) fn let_go<W: Session>(alloc: Global, s: &mut W, row: &Row) -> Result<(), StepErr>
    requires found { HasFoundFile row.now Missing (W.now s.old) }

    ensures ends { Ends (Then (Clears row.now) (Yields row.now None)) is_upload (W.now s.old) result
        (W.now s.new) }
{
    clear(alloc, s, row)?;
    give_way(alloc, s, row, None)
}

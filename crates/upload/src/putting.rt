ghost use Rattle.std.specs.Prelude.{◌≡◌, IfOk};
ghost use Rattle.item_text.specs.Grammar.{written};
ghost use Rattle.local_store.specs.Rows.{item_of};
ghost use Rattle.session.specs.Doing.{Ends};
ghost use Rattle.session.specs.declared.finding.Finding.TheVariants.{Same};
ghost use Rattle.upload.specs.Found.{HasSeenFile, MayPutText};
ghost use Rattle.upload.specs.Uploading.{EndsUpload, Puts, PutsBytes, PutsTextOf, is_new_resource, is_upload};

use crate::loading::put_bytes;
use conflicts::StepErr;
use item_kinds::Kind;
use item_text::write_item;
use jop_base::{Bytes, Copied, Path};
use jop_target::Call;
use local_store::{Change, Row, has_kind};
use session::Session;
use std::alloc::Global;

/// Whether the row is a resource that was never on the target.
fn is_new_resource(row: &Row) -> bool
    ensures { result ≡ is_new_resource row.now }
{
    has_kind(row.content.item(), Kind::RESOURCE) && row.base.is_none()
}

/// Puts the bytes of a new resource.
fn put_if_new<W: Session>(alloc: Global, s: &mut W, row: &Row) -> Result<(), StepErr>
    requires seen { HasSeenFile row.now Same (W.now s.old) }

    ensures ends { EndsUpload (λ blobs. PutsBytes blobs row.now) (W.now s.old) result (W.now s.new) }
{
    if !is_new_resource(row) {
        return Ok(());
    }
    put_bytes(alloc, s, &row.id)
}

/// Puts the text of a row's item over a file that is as the client left it, and gives the text back.
fn put_text<W: Session>(alloc: Global, s: &mut W, row: &Row) -> Result<Bytes, StepErr>
    requires may { MayPutText row.now (W.now s.old) }

    ensures ends { Ends (PutsTextOf row.now) is_upload (W.now s.old) result (W.now s.new) }
    ensures text { IfOk result (λ text. text ≡ written (item_of row.now.content)) }
{
    let text = write_item(alloc, row.content.item())?;
    let copy = text.copy(alloc)?;
    s.ask(alloc, Call::Put(Path::Item(row.id), copy))?;
    Ok(text)
}

/// Uploads a row whose file is as the client left it.
pub(crate) fn put_row<W: Session>(alloc: Global, s: &mut W, row: &Row) -> Result<(), StepErr>
    requires seen { HasSeenFile row.now Same (W.now s.old) }

    ensures ends { EndsUpload (λ blobs. Puts blobs row.now) (W.now s.old) result (W.now s.new) }
{
    put_if_new(alloc, s, row)?;
    let text = put_text(alloc, s, row)?;
    s.make(alloc, Change::Uploaded(row.id, text))
}

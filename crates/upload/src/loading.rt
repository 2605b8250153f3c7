ghost use Rattle.std.specs.Prelude.{Option};
ghost use Rattle.law_licences.specs.Puts.{MayPutBlob};
ghost use Rattle.law_licences.specs.Views.{Shown};
ghost use Rattle.session.specs.Doing.{Ends};
ghost use Rattle.session.specs.Work.{IsAtWork, view_of};
ghost use Rattle.upload.specs.Uploading.{EndsUpload, PutsKept, is_upload};

use conflicts::StepErr;
use jop_base::Id;
use session::Session;
use std::alloc::Global;

/// Puts the bytes of a resource that the keeper has, if it has any.
pub(crate) fn put_bytes<W: Session>(alloc: Global, s: &mut W, id: &Id) -> Result<(), StepErr>
    requires ready { IsAtWork (W.now s.old) }
    requires may { (shown : Option Shown) → MayPutBlob (view_of shown (W.now s.old).site) id.now }

    ensures ends { EndsUpload (λ blobs. PutsKept blobs id.now) (W.now s.old) result (W.now s.new) }
{
    let loaded = s.load(alloc, id)?;
    match loaded {
        Some(mut bytes) => s.put_bytes(alloc, id, &mut bytes),
        None => Ok(()),
    }
}

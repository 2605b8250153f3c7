ghost use Rattle.std.specs.Prelude.{◌≡◌, false};
ghost use Rattle.client.specs.Sites.{IsTidy};
ghost use Rattle.upload.specs.Conditions.{CanUpload};
ghost use Rattle.test_client.specs.Begun.{EndsAtBeginning};

use crate::broken_off::BrokenOff;
use client::Client;
use conflicts::{StepErr, SyncReport};
use download::apply_listed;
use jop_base::{Id, LockKind};
use lease::acquire;
use session::{Hand, Session};
use std::alloc::Global;
use upload::{delete_listed, upload_waiting};

/// What is done of a session once it has its lease.
#[derive(Clone, Copy)]
pub enum Part {
    /// Items that were saved here are uploaded.
    Upload,
    /// What others have written is read.
    Download,
    /// Items are uploaded, the files of those that were removed here are deleted, and what others
    /// have written is read.
    Whole,
}

/// Uploads, deletes, and reads what others have written.
fn sync<W: Session>(alloc: Global, s: &mut W) -> Result<(), StepErr>
    requires can { CanUpload (W.now s.old) }
{
    upload_waiting(alloc, s)?;
    delete_listed(alloc, s)?;
    apply_listed(alloc, s)
}

fn perform<W: Session>(alloc: Global, s: &mut W, part: Part) -> Result<(), StepErr>
    requires can { CanUpload (W.now s.old) }
{
    match part {
        Part::Upload => upload_waiting(alloc, s),
        Part::Download => apply_listed(alloc, s),
        Part::Whole => sync(alloc, s),
    }
}

/// Takes a lease in a session that has begun, and does this part of it.
pub(crate) fn work<S: Client>(
    alloc: Global,
    site: &mut S,
    client: &Id,
    part: Part,
) -> Result<SyncReport, BrokenOff>
    requires tidy { IsTidy (S.site site.old) }
    requires begun { EndsAtBeginning (S.site site.old).line.trail }
    requires readable { (S.site site.old).tables.info.e2ee.value ≡ false }
{
    let mut lease = acquire(alloc, site, LockKind::Sync, client)?;
    let mut report = SyncReport::new(alloc);
    let mut hand = Hand {
        site: &mut *site,
        lease: &mut lease,
        report: &mut report,
    };
    perform(alloc, &mut hand, part)?;
    Ok(report)
}

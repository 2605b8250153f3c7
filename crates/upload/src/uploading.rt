ghost use Rattle.std.specs.Prelude.{◌≡◌, IfOk, OnOk};
ghost use Rattle.lease.specs.Standing.{IsSameBut};
ghost use Rattle.session.specs.Doing.{Ends};
ghost use Rattle.session.specs.Parts.{ForEach};
ghost use Rattle.session.specs.Work.{IsReady, work};
ghost use Rattle.upload.specs.Conditions.{AreUnput, CanUpload, CanUploadAny, IsReadable};
ghost use Rattle.upload.specs.Found.{HasSeenFile, IsUploadable};
ghost use Rattle.upload.specs.Settled.{AreSettled, AreUploadable};
ghost use Rattle.upload.specs.Uploading.{EndsUpload, Settles, Uploads, UploadsOne, UploadsRow, is_upload, pending_ids};

use crate::putting::put_row;
use crate::yielding::{give_way_to, let_go};
use client::Client;
use conflicts::{StepErr, SyncReport};
use jop_base::{Copied, Id, Seq};
use lease::Lease;
use local_store::{Row, Tables};
use session::{Finding, Hand, Session, waiting_row};
use std::alloc::{AllocError, Global};

/// Does with a row that waits what its file asks for.
fn settle<W: Session>(alloc: Global, s: &mut W, row: &Row, finding: Finding) -> Result<(), StepErr>
    requires seen { HasSeenFile row.now finding (W.now s.old) }

    ensures ends { EndsUpload (λ blobs. Settles blobs row.now finding)
        (W.now s.old) result (W.now s.new) }
{
    match finding {
        Finding::Same => put_row(alloc, s, row),
        Finding::Other(remote) => give_way_to(alloc, s, row, remote),
        Finding::Missing => let_go(alloc, s, row),
        Finding::Unreadable => Ok(()),
    }
}

/// Uploads a row that waits, or lets it give way.
fn upload_row<W: Session>(alloc: Global, s: &mut W, row: &Row) -> Result<(), StepErr>
    requires uploadable { IsUploadable row.now (W.now s.old) }

    ensures ends { EndsUpload (λ blobs. UploadsRow blobs row.now)
        (W.now s.old) result (W.now s.new) }
{
    let finding = s.find(alloc, &row.id)?;
    settle(alloc, s, row, finding)
}

/// Uploads the row of this id, if it still waits.
fn upload_one<W: Session>(alloc: Global, s: &mut W, id: &Id) -> Result<(), StepErr>
    requires can { CanUploadAny (W.now s.old) }

    ensures ends { EndsUpload (λ blobs. UploadsOne blobs id.now)
        (W.now s.old) result (W.now s.new) }
{
    let waiting = waiting_row(alloc, s.tables(), id)?;
    match waiting {
        Some(row) => {
            let uploaded = upload_row(alloc, s, &row);
            jop_base::let_go(row);
            uploaded
        }
        None => Ok(()),
    }
}

/// Uploads the rows of these ids, among which are all that wait.
fn upload_each<W: Session>(alloc: Global, s: &mut W, ids: &[Id]) -> Result<(), StepErr>
    requires uploadable { AreUploadable ids.now (W.now s.old) }

    ensures ends { EndsUpload (λ blobs. ForEach (UploadsOne blobs) ids.now)
        (W.now s.old) result (W.now s.new) }
    ensures settled { OnOk result (AreSettled (W.now s.new).site) }
{
    for index in 0..ids.len() {
        upload_one(alloc, s, &ids[index])?;
    }
    Ok(())
}

/// The ids of the rows that wait.
fn pending_ids(alloc: Global, tables: &Tables) -> Result<Seq<Id>, AllocError>
    ensures { IfOk result (λ ids. ids ≡ pending_ids tables.now) }
{
    let mut ids = Seq::new(alloc);
    for row in tables.rows.as_slice() {
        if row.pending {
            ids.push(row.id)?;
        }
    }
    Ok(ids)
}

/// Uploads all items that were saved here, in the order of their ids: each is checked by a get of its file right before
/// it is put, and gives way to another client's work.
pub fn upload_waiting<W: Session>(alloc: Global, s: &mut W) -> Result<(), StepErr>
    requires can { CanUpload (W.now s.old) }

    ensures ends { Ends (Uploads (W.now s.old).site.keeper.kept) is_upload (W.now s.old) result
        (W.now s.new) }
    ensures settled { OnOk result (AreSettled (W.now s.new).site) }
{
    let ids = pending_ids(alloc, s.tables())?;
    upload_each(alloc, s, ids.as_slice())
}

/// The same for a client, under a lease, counted in a report.
pub fn upload_all<S: Client>(
    alloc: Global,
    site: &mut S,
    lease: &mut Lease,
    report: &mut SyncReport,
) -> Result<(), StepErr>
    requires ready { IsReady (S.site site.old) lease.old }
    requires readable { IsReadable (S.site site.old) }
    requires first { AreUnput (S.site site.old) }

    ensures ready { OnOk result (IsReady (S.site site.new) lease.new) }
    ensures lease { IsSameBut lease.old lease.new }
    ensures settled { OnOk result (AreSettled (S.site site.new)) }
    ensures ends { Ends (Uploads (S.site site.old).keeper.kept) is_upload
        (work (S.site site.old) lease.old report.old) result
        (work (S.site site.new) lease.new report.new) }
    ensures stays { S.place site.new ≡ S.place site.old }
{
    let mut s = Hand {
        site: &mut *site,
        lease: &mut *lease,
        report: &mut *report,
    };
    upload_waiting(alloc, &mut s)
}

ghost use Rattle.std.specs.Prelude.{◌≡◌, [], OnOk};
ghost use Rattle.upload.specs.Deleting.{BeginsWithDeletion, Deletes, DeletesBytes, DeletesFile, DeletesOne, HasDeletion, HasDeletions, MayDeleteFile, is_deletion};
ghost use Rattle.lease.specs.Standing.{IsSameBut};
ghost use Rattle.session.specs.Doing.{Ends};
ghost use Rattle.session.specs.Work.{IsAtWork, IsReady, work};

use client::Client;
use conflicts::{StepErr, SyncReport};
use jop_base::{Copied, Path};
use jop_target::Call;
use lease::Lease;
use local_store::{Change, Deletion};
use session::{Hand, Session};
use std::alloc::Global;

/// Deletes a file of an item, or the bytes of a resource.
fn delete<W: Session>(alloc: Global, s: &mut W, path: Path) -> Result<(), StepErr>
    requires may { MayDeleteFile path (W.now s.old) }

    ensures ends { Ends (DeletesFile path) is_deletion (W.now s.old) result (W.now s.new) }
{
    s.ask(alloc, Call::Delete(path))
}

/// Deletes the bytes of what was a resource.
fn delete_bytes<W: Session>(alloc: Global, s: &mut W, deletion: &Deletion) -> Result<(), StepErr>
    requires has { HasDeletion deletion.now (W.now s.old) }

    ensures ends { Ends (DeletesBytes deletion.now deletion.now.resource) is_deletion (W.now s.old)
        result (W.now s.new) }
{
    if !deletion.resource {
        return Ok(());
    }
    delete(alloc, s, Path::Blob(deletion.id))
}

/// Does what is to be done for the first deletion.
fn delete_one<W: Session>(alloc: Global, s: &mut W, deletion: &Deletion) -> Result<(), StepErr>
    requires first { BeginsWithDeletion deletion.now (W.now s.old) }

    ensures ends { Ends (DeletesOne deletion.now) is_deletion (W.now s.old) result (W.now s.new) }
{
    delete(alloc, s, Path::Item(deletion.id))?;
    delete_bytes(alloc, s, deletion)?;
    s.make(alloc, Change::Dropped(deletion.id))
}

/// Does what is to be done for each of these deletions, which are all that there are.
fn delete_each<W: Session>(alloc: Global, s: &mut W, deletions: &[Deletion]) -> Result<(), StepErr>
    requires all { HasDeletions deletions.now (W.now s.old) }

    ensures ends { Ends Deletes is_deletion (W.now s.old) result (W.now s.new) }
{
    for index in 0..deletions.len() {
        delete_one(alloc, s, &deletions[index])?;
    }
    Ok(())
}

/// Deletes the files of all items that were removed here, in the order of their ids, and drops their deletions.
pub fn delete_listed<W: Session>(alloc: Global, s: &mut W) -> Result<(), StepErr>
    requires ready { IsAtWork (W.now s.old) }

    ensures ends { Ends Deletes is_deletion (W.now s.old) result (W.now s.new) }
{
    let deletions = s.tables().deletions.copy(alloc)?;
    delete_each(alloc, s, deletions.as_slice())
}

/// The same for a client, under a lease, counted in a report.
pub fn delete_all<S: Client>(
    alloc: Global,
    site: &mut S,
    lease: &mut Lease,
    report: &mut SyncReport,
) -> Result<(), StepErr>
    requires ready { IsReady (S.site site.old) lease.old }

    ensures ready { OnOk result (IsReady (S.site site.new) lease.new) }
    ensures lease { IsSameBut lease.old lease.new }
    ensures none { OnOk result ((S.site site.new).tables.deletions ≡ []) }
    ensures deletes { Ends Deletes is_deletion (work (S.site site.old) lease.old report.old)
        result (work (S.site site.new) lease.new report.new) }
    ensures stays { S.place site.new ≡ S.place site.old }
{
    let mut s = Hand {
        site: &mut *site,
        lease: &mut *lease,
        report: &mut *report,
    };
    delete_listed(alloc, &mut s)
}

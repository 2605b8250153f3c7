ghost use Rattle.std.specs.Prelude.{◌≡◌};
ghost use Rattle.sync_session.specs.Leaving.{HoldsIf, LeavesLease, answer_once_left, holds_lease, or_fault};

use crate::sync_err::SyncErr;
use client::Client;
use lease::{Lease, LeaseErr, release};
use std::alloc::Global;

/// Whether the lease is still held behind work that was answered so.
fn holds_lease(worked: &Result<(), SyncErr>) -> bool
    ensures { result ≡ holds_lease worked.now }
{
    !matches!(
        worked,
        Err(
            SyncErr::Busy { lock: _, now: _ }
                | SyncErr::LeaseLost(_)
                | SyncErr::TargetFault
                | SyncErr::NoMemory
        )
    )
}

/// Only work that is done answers that the release failed.
fn or_fault(worked: Result<(), SyncErr>) -> Result<(), SyncErr>
    ensures { result ≡ or_fault worked }
{
    match worked {
        Ok(()) => Err(SyncErr::TargetFault),
        Err(error) => Err(error),
    }
}

/// What a session answers whose work was answered so, and whose release so.
fn answer(released: Result<(), LeaseErr>, worked: Result<(), SyncErr>) -> Result<(), SyncErr>
    ensures { result ≡ answer_once_left released worked }
{
    match released {
        Ok(()) => worked,
        Err(LeaseErr::NoMemory) => Err(SyncErr::NoMemory),
        Err(LeaseErr::TargetFault) => or_fault(worked),
        Err(LeaseErr::Lost(_)) => or_fault(worked),
        Err(LeaseErr::Busy { lock: _, now: _ }) => or_fault(worked),
    }
}

/// Gives up the lease behind the work, if it is held still, and answers what the session comes to.
pub(crate) fn leave<S: Client>(
    alloc: Global,
    site: &mut S,
    lease: Lease,
    worked: Result<(), SyncErr>,
) -> Result<(), SyncErr>
    requires held { HoldsIf worked lease (S.site site.old) }

    ensures leaves { LeavesLease lease worked (S.site site.old) result (S.site site.new) }
    ensures stays { S.place site.new ≡ S.place site.old }
{
    if !holds_lease(&worked) {
        return worked;
    }
    let released = release(alloc, site, lease);
    answer(released, worked)
}

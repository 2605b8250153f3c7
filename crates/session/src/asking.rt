ghost use Rattle.std.specs.Prelude.{◌≡◌};
ghost use Rattle.client.specs.Sites.{IsSameSite};
ghost use Rattle.session.specs.Asking.{AsksOnce, AsksUnderLease, IsAskable};
ghost use Rattle.session.specs.Work.{IsReady};

use client::Client;
use conflicts::StepErr;
use jop_base::Bytes;
use jop_target::Call;
use lease::{Lease, LeaseErr, call_held};
use std::alloc::Global;

/// Makes a call of a part of a session, under its lease, which is renewed before it if it is due.
pub(crate) fn ask<S: Client>(
    alloc: Global,
    site: &mut S,
    lease: &mut Lease,
    call: Call,
    bytes: &mut Bytes,
) -> Result<(), StepErr>
    requires ready { IsReady (S.site site.old) lease.old }
    requires askable { IsAskable call bytes.old (S.site site.old) lease.old }

    ensures asks { AsksUnderLease
        call (S.site site.old) lease.old result (S.site site.new) lease.new bytes.new }
    ensures once { AsksOnce call (S.site site.old) result (S.site site.new) }
    ensures same { IsSameSite (S.site site.old) (S.site site.new) }
    ensures stays { S.place site.new ≡ S.place site.old }
{
    match call_held(alloc, site, lease, call, bytes) {
        Ok(()) => Ok(()),
        Err(LeaseErr::Lost(seen)) => Err(StepErr::Lost(seen)),
        Err(LeaseErr::TargetFault) => Err(StepErr::TargetFault),
        Err(LeaseErr::NoMemory) => Err(StepErr::NoMemory),
        Err(LeaseErr::Busy { lock: _, now: _ }) => unreachable!(),
    }
}

ghost use Rattle.std.specs.Prelude.{◌≡◌, true};
ghost use Rattle.jop_target.specs.Replies.{IsCallable};
ghost use Rattle.lease.specs.Added.{Makes, renew_calls};
ghost use Rattle.lease.specs.Calls.{LeaseGoesOn};
ghost use Rattle.lease.specs.Idle.{is_working};
ghost use Rattle.lease.specs.Outcomes.{RenewsIfDue};
ghost use Rattle.lease.specs.Phase.{role_of};
ghost use Rattle.lease.specs.Standing.{IsHeld, IsSameBut};
ghost use Rattle.lease.specs.Work.{Works};

use crate::error::LeaseErr;
use crate::lease::Lease;
use crate::renewal::renew;
use jop_base::Bytes;
use jop_target::{Call, Line, Reply};
use std::alloc::Global;

/// Makes a call under a lease that is held, which is renewed before it if it is due by the last
/// moment heard. `Lost` if the renewal gave no lease, `TargetFault` if a call failed.
pub fn call_held<L: Line>(
    alloc: Global,
    line: &mut L,
    lease: &mut Lease,
    call: Call,
    blob: &mut Bytes,
) -> Result<(), LeaseErr>
    requires held { IsHeld lease.old (L.state line.old).trail }
    requires work { is_working (role_of lease.old.client call) ≡ true }
    requires callable { IsCallable call blob.old }

    ensures gives { let before = L.state line.old in
        Works lease.old lease.new call blob.old before (L.state line.new) blob.new result }
    ensures same { IsSameBut lease.old lease.new }
    ensures keeps { L.keeps line.old line.new }
{
    renew_if_due(alloc, line, lease)?;
    line.call(alloc, call, blob)?;
    match line.last() {
        Reply::Failed => Err(LeaseErr::TargetFault),
        _ => Ok(()),
    }
}

/// Renews a lease if it is due by the last moment heard.
fn renew_if_due<L: Line>(alloc: Global, line: &mut L, lease: &mut Lease) -> Result<(), LeaseErr>
    requires { IsHeld lease.old (L.state line.old).trail }
    ensures gives { RenewsIfDue lease.old lease.new (L.state line.old) (L.state line.new) result }
    ensures same { IsSameBut lease.old lease.new }
    ensures calls { let renewal = renew_calls lease.old.kind lease.old.client in
        Makes renewal (L.state line.old).trail (L.state line.new).trail result }
    ensures goes { LeaseGoesOn lease.old.client (L.state line.old) (L.state line.new) }
    ensures keeps { L.keeps line.old line.new }
{
    if lease.due(line.heard()) {
        renew(alloc, line, lease)
    } else {
        Ok(())
    }
}

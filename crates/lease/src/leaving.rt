ghost use Rattle.std.specs.Prelude.{◌≡◌};
ghost use Rattle.lease.specs.Added.{Makes, leave_calls};
ghost use Rattle.lease.specs.Calls.{IsLeft, LeaseGoesOn};
ghost use Rattle.lease.specs.Outcomes.{Releases};
ghost use Rattle.lease.specs.Phase.{Held, Leaving};
ghost use Rattle.lease.specs.Standing.{StandsIn};

use crate::ask::ask;
use crate::error::{AskErr, LeaseErr};
use crate::lease::Lease;
use crate::lock::own_path;
use jop_base::{ClientId, LockKind};
use jop_target::{Call, Line};
use std::alloc::{AllocError, Global};

/// Gives a lease up: deletes its own lock. A lock that isn't there is done with too. `TargetFault`
/// if the delete failed.
pub fn release<L: Line>(alloc: Global, line: &mut L, lease: Lease) -> Result<(), LeaseErr>
    requires { StandsIn lease.client (L.state line.old).trail (Held lease.kind lease.stamp) }

    ensures gives { Releases lease (L.state line.old) (L.state line.new) result }
    ensures calls { let leave = leave_calls lease.kind lease.client in
        Makes leave (L.state line.old).trail (L.state line.new).trail result }

    ensures goes { LeaseGoesOn lease.client (L.state line.old) (L.state line.new) }
    ensures keeps { L.keeps line.old line.new }
{
    let path = own_path(lease.kind, &lease.client);
    ask(alloc, line, &lease.client, Call::Delete(path))?;
    Ok(())
}

/// Deletes its own lock, whatever the answer.
pub(crate) fn leave<L: Line>(
    alloc: Global,
    line: &mut L,
    kind: LockKind,
    client: &ClientId,
) -> Result<(), AllocError>
    requires { StandsIn client.now (L.state line.old).trail (Leaving kind) }
    ensures left { IsLeft kind client.now (L.state line.old) (L.state line.new) result }
    ensures goes { LeaseGoesOn client.now (L.state line.old) (L.state line.new) }
    ensures keeps { L.keeps line.old line.new }
{
    match ask(alloc, line, client, Call::Delete(own_path(kind, client))) {
        Ok(()) | Err(AskErr::Fault) => Ok(()),
        Err(AskErr::NoMemory) => Err(AllocError),
    }
}

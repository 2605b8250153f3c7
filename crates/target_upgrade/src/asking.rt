ghost use Rattle.std.specs.Prelude.{IfErr, OnOk};
ghost use Rattle.target_upgrade.specs.Answers.{HasMade, IsNextCall, Stops, WorkGoesOn, stage_of};
ghost use Rattle.target_upgrade.specs.Verdict.{IsJudgedOnce};

use jop_base::Bytes;
use jop_target::{Call, Line};
use lease::{Lease, LeaseErr, call_held};
use std::alloc::Global;

/// Makes the next call of an upgrade.
pub(crate) fn ask<L: Line>(
    alloc: Global,
    line: &mut L,
    lease: &mut Lease,
    call: Call,
) -> Result<(), LeaseErr>
    requires { IsNextCall lease.old (L.state line.old).trail call }
    ensures ok { let stage = stage_of lease.old (L.state line.old).trail in
        OnOk result (HasMade lease.old lease.new call stage (L.state line.new)) }
    ensures err { IfErr result (Stops lease.old (L.state line.old) (L.state line.new)) }
    ensures once { IsJudgedOnce call (L.state line.old).trail result (L.state line.new).trail }
    ensures goes { WorkGoesOn lease.old.client (L.state line.old) (L.state line.new) }
    ensures keeps { L.keeps line.old line.new }
{
    let mut blob = Bytes::new(alloc);
    call_held(alloc, line, lease, call, &mut blob)?;
    Ok(())
}

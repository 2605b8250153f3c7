ghost use Rattle.std.specs.Prelude.{◌≡◌};
ghost use Rattle.sync_info.specs.Info.{IsInfo};
ghost use Rattle.target_upgrade.specs.Answers.{Begins, ComesOr, StandsAt, UpgradesTarget};
ghost use Rattle.target_upgrade.specs.Answers.{WorkGoesOn, info_or_new};
ghost use Rattle.target_upgrade.specs.Steps.{At, Upgraded};

use crate::getting::take_keys;
use crate::step::Step;
use crate::steps::{make_first, make_second};
use crate::version::SUPPORTED;
use jop_target::Line;
use lease::{Lease, LeaseErr};
use std::alloc::Global;
use sync_info::Info;

/// Brings a target to the supported version under an exclusive lease, from the version and the info
/// that the session has read: a version of that at most, and no info if there was no `info.json`. The
/// lease is renewed when it is due. `Lost` if a renewal gave no lease, `TargetFault` if a call failed.
pub fn upgrade<L: Line>(
    alloc: Global,
    line: &mut L,
    lease: &mut Lease,
    from: u64,
    info: Option<Info>,
) -> Result<u64, LeaseErr>
    requires { Begins lease.old (L.state line.old).trail from (info_or_new from info) }

    ensures gives { UpgradesTarget
        lease.old lease.new (L.state line.old) (L.state line.new) result }

    ensures goes { WorkGoesOn lease.old.client (L.state line.old) (L.state line.new) }
    ensures keeps { L.keeps line.old line.new }
{
    let info = info_or_new(alloc, from, info);
    bring(alloc, line, lease, from, info)?;
    Ok(SUPPORTED)
}

/// The info that was read, or that of a new target.
fn info_or_new(alloc: Global, from: u64, info: Option<Info>) -> Info
    ensures { result ≡ info_or_new from info }
{
    match info {
        Some(info) => info,
        None => Info::new(alloc, from),
    }
}

fn bring<L: Line>(
    alloc: Global,
    line: &mut L,
    lease: &mut Lease,
    from: u64,
    info: Info,
) -> Result<(), LeaseErr>
    requires { Begins lease.old (L.state line.old).trail from info }
    ensures gives { let before = L.state line.old in
        ComesOr lease.old lease.new Upgraded before (L.state line.new) result }
    ensures goes { WorkGoesOn lease.old.client (L.state line.old) (L.state line.new) }
    ensures keeps { L.keeps line.old line.new }
{
    match from {
        0 => bring_new(alloc, line, lease, info),
        1 => bring_first(alloc, line, lease, info),
        2 => take_keys(alloc, line, lease, info),
        _ => Ok(()),
    }
}

/// From version 0.
fn bring_new<L: Line>(
    alloc: Global,
    line: &mut L,
    lease: &mut Lease,
    info: Info,
) -> Result<(), LeaseErr>
    requires at { StandsAt lease.old (L.state line.old).trail (At Step.MakesResources info) }
    requires valid { IsInfo info }
    ensures gives { let before = L.state line.old in
        ComesOr lease.old lease.new Upgraded before (L.state line.new) result }
    ensures goes { WorkGoesOn lease.old.client (L.state line.old) (L.state line.new) }
    ensures keeps { L.keeps line.old line.new }
{
    make_first(alloc, line, lease, &info)?;
    bring_first(alloc, line, lease, info)?;
    Ok(())
}

/// From version 1.
fn bring_first<L: Line>(
    alloc: Global,
    line: &mut L,
    lease: &mut Lease,
    info: Info,
) -> Result<(), LeaseErr>
    requires at { StandsAt lease.old (L.state line.old).trail (At Step.MakesLocks info) }
    requires valid { IsInfo info }
    ensures gives { let before = L.state line.old in
        ComesOr lease.old lease.new Upgraded before (L.state line.new) result }
    ensures goes { WorkGoesOn lease.old.client (L.state line.old) (L.state line.new) }
    ensures keeps { L.keeps line.old line.new }
{
    make_second(alloc, line, lease, &info)?;
    take_keys(alloc, line, lease, info)?;
    Ok(())
}

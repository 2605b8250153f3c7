ghost use Rattle.std.specs.Prelude.{◌≡◌, false};
ghost use Rattle.sync_info.specs.Info.{IsInfo};
ghost use Rattle.target_upgrade.specs.Answers.{ComesOr, StandsAt, WorkGoesOn};
ghost use Rattle.target_upgrade.specs.Steps.{At, is_last, next_step};

use crate::asking::ask;
use crate::step::Step;
use jop_target::Line;
use lease::{Lease, LeaseErr};
use std::alloc::Global;
use sync_info::Info;

/// Makes one step but the last.
fn make<L: Line>(
    alloc: Global,
    line: &mut L,
    lease: &mut Lease,
    step: Step,
    info: &Info,
) -> Result<(), LeaseErr>
    requires at { StandsAt lease.old (L.state line.old).trail (At step info.now) }
    requires valid { IsInfo info.now }
    requires early { is_last step ≡ false }
    ensures gives { let next = At (next_step step) info.now in
        ComesOr lease.old lease.new next (L.state line.old) (L.state line.new) result }
    ensures goes { WorkGoesOn lease.old.client (L.state line.old) (L.state line.new) }
    ensures keeps { L.keeps line.old line.new }
{
    let call = step.call(alloc, info)?;
    ask(alloc, line, lease, call)?;
    Ok(())
}

/// Brings a target from version 0 to 1.
pub(crate) fn make_first<L: Line>(
    alloc: Global,
    line: &mut L,
    lease: &mut Lease,
    info: &Info,
) -> Result<(), LeaseErr>
    requires at { StandsAt lease.old (L.state line.old).trail (At Step.MakesResources info.now) }
    requires valid { IsInfo info.now }
    ensures gives { let next = At Step.MakesLocks info.now in
        ComesOr lease.old lease.new next (L.state line.old) (L.state line.new) result }
    ensures goes { WorkGoesOn lease.old.client (L.state line.old) (L.state line.new) }
    ensures keeps { L.keeps line.old line.new }
{
    make(alloc, line, lease, Step::MakesResources, info)?;
    make(alloc, line, lease, Step::MakesOldSync, info)?;
    make(alloc, line, lease, Step::PutsOne, info)?;
    Ok(())
}

/// Brings a target from version 1 to 2.
pub(crate) fn make_second<L: Line>(
    alloc: Global,
    line: &mut L,
    lease: &mut Lease,
    info: &Info,
) -> Result<(), LeaseErr>
    requires at { StandsAt lease.old (L.state line.old).trail (At Step.MakesLocks info.now) }
    requires valid { IsInfo info.now }
    ensures gives { let next = At Step.ListsRoot info.now in
        ComesOr lease.old lease.new next (L.state line.old) (L.state line.new) result }
    ensures goes { WorkGoesOn lease.old.client (L.state line.old) (L.state line.new) }
    ensures keeps { L.keeps line.old line.new }
{
    make(alloc, line, lease, Step::MakesLocks, info)?;
    make(alloc, line, lease, Step::MakesTemp, info)?;
    make(alloc, line, lease, Step::PutsTwo, info)?;
    make(alloc, line, lease, Step::PutsInfo, info)?;
    Ok(())
}

ghost use Rattle.std.specs.Prelude.{◌≡◌};
ghost use Rattle.local_commands.specs.Stages.{LooksAtClock};

use client::Outside;
use jop_outside::Failed;

/// The time, or 0 for a command that doesn't use it.
pub(crate) fn look_at_clock<O: Outside>(outside: &mut O, uses: bool) -> Result<u64, Failed>
    ensures looks { LooksAtClock uses (O.now outside.old) result (O.now outside.new) }
    ensures stays { O.place outside.new ≡ O.place outside.old }
{
    if !uses {
        return Ok(0);
    }
    let now = outside.time()?;
    Ok(now)
}

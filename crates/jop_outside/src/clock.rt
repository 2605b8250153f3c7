ghost use Rattle.std.specs.Prelude.{◌≤◌, IfOk};
ghost use Rattle.jop_outside.specs.Clocks.{ClockNow, Shows};
ghost use Rattle.jop_outside.specs.Outside.{HasCause};
ghost use Rattle.jop_base.specs.Times.{last_time};

use crate::failed::Failed;

/// What shows the time: the computer's clock, or one in memory.
pub trait Clock: Drop {
    /// What it shows next, if it tells, and how often it has failed.
    ghost state: { Self → ClockNow };

    /// The time, in milliseconds since 1970: at most `MAX_TIME`.
    fn now(&mut self) -> Result<u64, Failed>
        ensures time { IfOk result (λ now. now ≤ last_time) }
        ensures shows { Shows (state self.old).next result (state self.new).next }
        ensures cause { HasCause (state self.old).faults result (state self.new).faults };
}

ghost use Rattle.std.specs.Prelude.{◌≡◌, ◌≤◌, OnOk, OnErr, IfOk, IsSome, None, false};
ghost use Rattle.jop_outside.specs.Clocks.{Shows, ticks_from, later_by};
ghost use Rattle.jop_outside.specs.Outside.{HasCause};
ghost use Rattle.jop_outside.specs.Plan.{after_call, next_fate, with_failing};
ghost use Rattle.jop_base.specs.Times.{last_time};

use crate::clock::Clock;
use crate::failed::Failed;
use crate::faults::Faults;
use crate::plan::Plan;
use jop_base::MAX_TIME;
use std::alloc::{AllocError, Global};
use std::marker::Model;

/// A clock in memory, which goes on by itself each time it is read.
#[derive(Debug, Drop)]
pub struct MemClock {
    next: u64,
    step: u64,
    faults: Faults,
    plan: Plan,
}

impl Model for MemClock {
    ghost use Rattle.std.specs.Prelude.{◌≤◌};
    ghost use Rattle.jop_outside.specs.Clocks.{Ticks};
    ghost use Rattle.jop_base.specs.Times.{last_time};

    ghost Value = { Ticks };

    ghost view = { λ c. record { next = c.next; step = c.step; faults = c.faults; plan = c.plan } };

    ghost invariant = { λ c. c.next ≤ last_time };
}

impl MemClock {
    /// It shows `start` first, in milliseconds since 1970, or `MAX_TIME` if that is less. Each time it shows `step`
    /// milliseconds more, up to `MAX_TIME`. No call is to fail.
    pub fn new(alloc: Global, start: u64, step: u64) -> MemClock
        ensures { result ≡ ticks_from start step }
    {
        MemClock {
            next: start.min(MAX_TIME),
            step,
            faults: Faults::new(),
            plan: Plan::new(alloc),
        }
    }

    /// The call of this number, counted from 1 at the first, answers `Failed`, and the clock doesn't go on.
    pub fn fail(&mut self, nth: u64) -> Result<(), AllocError>
        ensures ok { OnOk result
            (self.new ≡ record self.old { plan = with_failing self.old.plan nth false }) }
        ensures err { OnErr result (self.new ≡ self.old) }
    {
        self.plan.fail(nth, false)
    }

    /// How often it has failed.
    pub fn faults(&self) -> u64
        ensures { result ≡ self.now.faults }
    {
        self.faults.count()
    }
}

impl Clock for MemClock {
    ghost use Rattle.std.specs.Prelude.{Some};

    ghost state = { λ c. record { next = Some c.next; faults = c.faults } };

    fn now(&mut self) -> Result<u64, Failed>
        ensures time { IfOk result (λ now. now ≤ last_time) }
        ensures shows { Shows (Some self.old.next) result (Some self.new.next) }
        ensures cause { HasCause self.old.faults result self.new.faults }

        ensures goes_on { OnOk result (self.new.next ≡ later_by self.old.step self.old.next) }
        ensures step { self.new.step ≡ self.old.step }
        ensures planned { OnOk result (next_fate self.old.plan ≡ None) }
        ensures failed { OnErr result (IsSome (next_fate self.old.plan)) }
        ensures counted { self.new.plan ≡ after_call self.old.plan }
    {
        let fate = self.plan.fate();
        self.plan.count_call();
        if fate.is_some() {
            self.faults.rise();
            return Err(Failed);
        }
        let now = self.next;
        self.next = now.saturating_add(self.step).min(MAX_TIME);
        Ok(now)
    }
}

ghost use Rattle.std.specs.Prelude.{◌≡◌, [], ◌<◌, ◌⊎◌, OnOk, OnErr, IsSome, None, false, length};
ghost use Rattle.jop_outside.specs.Outside.{HasCause};
ghost use Rattle.jop_outside.specs.Plan.{after_call, next_fate, with_failing};
ghost use Rattle.jop_outside.specs.Random.{Fills};

use crate::entropy::Entropy;
use crate::failed::Failed;
use crate::faults::Faults;
use crate::plan::Plan;
use crate::unread::Unread;
use jop_base::Bytes;
use std::alloc::{AllocError, Global};
use std::marker::Model;

/// A source of random bytes in memory, which gives the bytes that it was made with.
#[derive(Debug, Drop)]
pub struct MemEntropy {
    left: Unread,
    faults: Faults,
    plan: Plan,
}

impl Model for MemEntropy {
    ghost use Rattle.jop_outside.specs.Memory.{GivenBytes};

    ghost Value = { GivenBytes };

    ghost view = { λ m. record { left = m.left; faults = m.faults; plan = m.plan } };
}

impl MemEntropy {
    /// It gives these bytes in their order, and no call is to fail.
    pub fn new(alloc: Global, bytes: Bytes) -> MemEntropy
        ensures left { result.left ≡ bytes }
        ensures faults { result.faults ≡ 0 }
        ensures plan { result.plan ≡ record { made = 0; failing = [] } }
    {
        MemEntropy {
            left: Unread::of(bytes),
            faults: Faults::new(),
            plan: Plan::new(alloc),
        }
    }

    /// The call of this number, counted from 1 at the first, answers `Failed` and gives nothing.
    pub fn fail(&mut self, nth: u64) -> Result<(), AllocError>
        ensures ok { OnOk result
            (self.new ≡ record self.old { plan = with_failing self.old.plan nth false }) }
        ensures err { OnErr result (self.new ≡ self.old) }
    {
        self.plan.fail(nth, false)
    }

    /// The bytes that it has still to give.
    pub fn left(&self) -> &[u8]
        ensures { result.now ≡ self.now.left }
    {
        self.left.as_slice()
    }

    /// How often it has failed.
    pub fn faults(&self) -> u64
        ensures { result ≡ self.now.faults }
    {
        self.faults.count()
    }
}

impl Entropy for MemEntropy {
    ghost use Rattle.std.specs.Prelude.{Some};

    ghost state = { λ s. record { left = Some s.left; faults = s.faults } };

    fn fill(&mut self, into: &mut [u8]) -> Result<(), Failed>
        ensures length { length into.new ≡ length into.old }
        ensures fills { Fills (Some self.old.left) result into.new (Some self.new.left) }
        ensures cause { HasCause self.old.faults result self.new.faults }

        ensures untouched { OnErr result (into.new ≡ into.old) }
        ensures planned { OnOk result (next_fate self.old.plan ≡ None) }
        ensures failed { OnErr result
            (IsSome (next_fate self.old.plan) ⊎ (length self.old.left < length into.old)) }
        ensures counted { self.new.plan ≡ after_call self.old.plan }
    {
        let fate = self.plan.fate();
        self.plan.count_call();
        if fate.is_some() || self.left.as_slice().len() < into.len() {
            self.faults.rise();
            return Err(Failed);
        }
        self.left.give(into);
        Ok(())
    }
}

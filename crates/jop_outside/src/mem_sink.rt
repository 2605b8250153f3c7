ghost use Rattle.std.specs.Prelude.{◌≡◌, ◌++◌, [], ◌<◌, ◌≤◌, ◌⊎◌, OnOk, OnErr, IfOk, IsSome, None, false, length};
ghost use Rattle.std.specs.Bool.{OnTrue, OnFalse};
ghost use Rattle.jop_outside.specs.Outside.{HasCause, Writes, risen};
ghost use Rattle.jop_outside.specs.Plan.{after_call, next_fate, with_failing};

use crate::failed::Failed;
use crate::faults::Faults;
use crate::plan::Plan;
use crate::sink::Sink;
use jop_base::Bytes;
use std::alloc::{AllocError, Global};
use std::marker::Model;

/// A sink in memory. It keeps the allocator that it is made with: a write for which there is no memory counts as a
/// fault of the sink.
#[derive(Debug, Drop)]
pub struct MemSink {
    written: Bytes,
    faults: Faults,
    starved: Faults,
    plan: Plan,
}

impl Model for MemSink {
    ghost use Rattle.jop_outside.specs.Memory.{TakenBytes};

    ghost Value = { TakenBytes };

    ghost view = { λ m. record {
      written = m.written;
      faults = m.faults;
      starved = m.starved;
      plan = m.plan;
    } };
}

impl MemSink {
    /// Nothing is written, and no call is to fail.
    pub fn new(alloc: Global) -> MemSink
        ensures written { result.written ≡ [] }
        ensures faults { result.faults ≡ 0 }
        ensures starved { result.starved ≡ 0 }
        ensures plan { result.plan ≡ record { made = 0; failing = [] } }
    {
        MemSink {
            written: Bytes::new(alloc),
            faults: Faults::new(),
            starved: Faults::new(),
            plan: Plan::new(alloc),
        }
    }

    /// The call of this number, counted from 1 at the first, answers `Failed`.
    pub fn fail(&mut self, nth: u64) -> Result<(), AllocError>
        ensures ok { OnOk result
            (self.new ≡ record self.old { plan = with_failing self.old.plan nth false }) }
        ensures err { OnErr result (self.new ≡ self.old) }
    {
        self.plan.fail(nth, false)
    }

    /// The bytes that were written.
    pub fn written(&self) -> &[u8]
        ensures { result.now ≡ self.now.written }
    {
        self.written.as_slice()
    }

    /// How often it has failed.
    pub fn faults(&self) -> u64
        ensures { result ≡ self.now.faults }
    {
        self.faults.count()
    }

    /// How often it has failed for want of memory alone.
    pub fn starved(&self) -> u64
        ensures { result ≡ self.now.starved }
    {
        self.starved.count()
    }

    /// Whether these bytes are taken, all of them, by the call for which this is planned.
    fn take(&mut self, from: &[u8], fate: Option<bool>) -> bool
        ensures taken { OnTrue result (self.new.written ≡ self.old.written ++ from.now) }
        ensures kept { OnFalse result (self.new.written ≡ self.old.written) }

        ensures planned { OnTrue result (fate ≡ None) }
        ensures fed { OnTrue result (self.new.starved ≡ self.old.starved) }
        ensures missed { OnFalse result (IsSome fate ⊎ (self.new.starved ≡ risen self.old.starved)) }
        ensures others { (self.new.faults ≡ self.old.faults) × (self.new.plan ≡ self.old.plan) }
    {
        if fate.is_some() {
            return false;
        }
        if self.written.append(from).is_ok() {
            return true;
        }
        self.starved.rise();
        false
    }
}

impl Sink for MemSink {
    ghost use Rattle.std.specs.Prelude.{Some};

    ghost state = { λ s. record { written = Some s.written; faults = s.faults } };

    fn write(&mut self, from: &[u8]) -> Result<usize, Failed>
        ensures within { IfOk result (λ count. count ≤ length from.now) }
        ensures progress { IfOk result (λ count. 0 < length from.now → 0 < count) }
        ensures written { Writes (Some self.old.written) from.now result (Some self.new.written) }
        ensures cause { HasCause self.old.faults result self.new.faults }

        ensures whole { IfOk result (λ count. count ≡ length from.now) }
        ensures planned { OnOk result (next_fate self.old.plan ≡ None) }
        ensures failed { OnErr result
            (IsSome (next_fate self.old.plan) ⊎ (self.new.starved ≡ risen self.old.starved)) }
        ensures fed { OnOk result (self.new.starved ≡ self.old.starved) }
        ensures counted { self.new.plan ≡ after_call self.old.plan }
    {
        let fate = self.plan.fate();
        self.plan.count_call();
        if self.take(from, fate) {
            return Ok(from.len());
        }
        self.faults.rise();
        Err(Failed)
    }
}

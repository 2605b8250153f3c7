ghost use Rattle.std.specs.Prelude.{◌≡◌, ◌++◌, [], ◌<◌, ◌≤◌, ◌⊎◌, OnOk, OnErr, IfOk, IsSome, None, Some, false, length, min};
ghost use Rattle.std.specs.Bool.{OnTrue, OnFalse};
ghost use Rattle.jop_outside.specs.Outside.{HasCause, Reads, Writes, risen};
ghost use Rattle.jop_outside.specs.Plan.{after_call, next_fate, with_failing};
ghost use Rattle.dav_link.specs.Links.{OpensAlone, ReadsAlone, WritesAlone};
ghost use Rattle.dav_link.specs.Memory.{KeepsAlone, link_of};

use crate::link::Link;
use jop_base::Bytes;
use jop_outside::{Failed, Faults, Plan, Unread};
use std::alloc::{AllocError, Global};
use std::marker::Model;

/// A link in memory, which gives bytes that were set before and keeps what is written. It keeps the allocator that it
/// is made with: a write for which there is no memory counts as a fault of the link.
#[derive(Debug, Drop)]
pub struct MemLink {
    left: Unread,
    written: Bytes,
    opened: u64,
    faults: Faults,
    starved: Faults,
    plan: Plan,
}

impl Model for MemLink {
    ghost use Rattle.dav_link.specs.Memory.{LinkMemory};

    ghost Value = { LinkMemory };

    ghost view = { λ m. record {
      left = m.left;
      written = m.written;
      opened = m.opened;
      faults = m.faults;
      starved = m.starved;
      plan = m.plan;
    } };
}

impl MemLink {
    /// It gives these bytes, as many a read as fit, and no call is to fail. It isn't opened yet.
    pub fn new(alloc: Global, bytes: Bytes) -> MemLink
        ensures left { result.left ≡ bytes }
        ensures written { result.written ≡ [] }
        ensures opened { result.opened ≡ 0 }
        ensures faults { (result.faults ≡ 0) × (result.starved ≡ 0) }
        ensures plan { result.plan ≡ record { made = 0; failing = [] } }
    {
        MemLink {
            left: Unread::of(bytes),
            written: Bytes::new(alloc),
            opened: 0,
            faults: Faults::new(),
            starved: Faults::new(),
            plan: Plan::new(alloc),
        }
    }

    /// The call of this number, counted from 1 at the first, whichever of the three it is, answers `Failed` and does
    /// nothing else.
    pub fn fail(&mut self, nth: u64) -> Result<(), AllocError>
        ensures ok { OnOk result
            (self.new ≡ record self.old { plan = with_failing self.old.plan nth false }) }
        ensures err { OnErr result (self.new ≡ self.old) }
    {
        self.plan.fail(nth, false)
    }

    /// The bytes that were written.
    pub fn written(&self) -> &[u8]
        ensures { result.now ≡ self.now.written }
    {
        self.written.as_slice()
    }

    /// The bytes that were written, which it keeps no longer.
    pub fn into_written(self) -> Bytes
        ensures { result ≡ self.written }
    {
        self.written
    }

    /// How often it was opened. At 2^64 - 1 the count stays.
    pub fn opened(&self) -> u64
        ensures { result ≡ self.now.opened }
    {
        self.opened
    }

    /// How often it has failed.
    pub fn faults(&self) -> u64
        ensures { result ≡ self.now.faults }
    {
        self.faults.count()
    }

    /// How often it has failed for want of memory alone.
    pub fn starved(&self) -> u64
        ensures { result ≡ self.now.starved }
    {
        self.starved.count()
    }

    /// Whether these bytes are taken, all of them, by the call for which this is planned.
    fn take(&mut self, from: &[u8], fate: Option<bool>) -> bool
        ensures taken { OnTrue result (self.new.written ≡ self.old.written ++ from.now) }
        ensures kept { OnFalse result (self.new.written ≡ self.old.written) }

        ensures planned { OnTrue result (fate ≡ None) }
        ensures fed { OnTrue result (self.new.starved ≡ self.old.starved) }
        ensures missed { OnFalse result (IsSome fate ⊎ (self.new.starved ≡ risen self.old.starved)) }
        ensures alone { KeepsAlone self.old self.new }
    {
        if fate.is_some() {
            return false;
        }
        if self.written.append(from).is_ok() {
            return true;
        }
        self.starved.rise();
        false
    }
}

impl Link for MemLink {
    ghost state = { link_of };

    fn open(&mut self) -> Result<(), Failed>
        ensures alone { OpensAlone (link_of self.old) (link_of self.new) }
        ensures opened { self.new.opened ≡ risen self.old.opened }
        ensures cause { HasCause self.old.faults result self.new.faults }

        ensures planned { OnOk result (next_fate self.old.plan ≡ None) }
        ensures failed { OnErr result (IsSome (next_fate self.old.plan)) }
        ensures counted { self.new.plan ≡ after_call self.old.plan }
    {
        let fate = self.plan.fate();
        self.plan.count_call();
        self.opened = self.opened.saturating_add(1);
        if fate.is_some() {
            self.faults.rise();
            return Err(Failed);
        }
        Ok(())
    }

    fn read(&mut self, into: &mut [u8]) -> Result<usize, Failed>
        ensures within { IfOk result (λ count. count ≤ length into.old) }
        ensures length { length into.new ≡ length into.old }
        ensures read { Reads (Some self.old.left) result into.new (Some self.new.left) }
        ensures alone { ReadsAlone (link_of self.old) (link_of self.new) }
        ensures cause { HasCause self.old.faults result self.new.faults }

        ensures whole { IfOk result (λ count. count ≡ min (length into.old) (length self.old.left)) }
        ensures planned { OnOk result (next_fate self.old.plan ≡ None) }
        ensures failed { OnErr result (IsSome (next_fate self.old.plan)) }
        ensures counted { self.new.plan ≡ after_call self.old.plan }
    {
        let fate = self.plan.fate();
        self.plan.count_call();
        if fate.is_some() {
            self.faults.rise();
            return Err(Failed);
        }
        Ok(self.left.give(into))
    }

    fn write(&mut self, from: &[u8]) -> Result<usize, Failed>
        ensures within { IfOk result (λ count. count ≤ length from.now) }
        ensures progress { IfOk result (λ count. 0 < length from.now → 0 < count) }
        ensures written { Writes (Some self.old.written) from.now result (Some self.new.written) }
        ensures alone { WritesAlone (link_of self.old) (link_of self.new) }
        ensures cause { HasCause self.old.faults result self.new.faults }

        ensures whole { IfOk result (λ count. count ≡ length from.now) }
        ensures planned { OnOk result (next_fate self.old.plan ≡ None) }
        ensures failed { OnErr result
            (IsSome (next_fate self.old.plan) ⊎ (self.new.starved ≡ risen self.old.starved)) }
        ensures fed { OnOk result (self.new.starved ≡ self.old.starved) }
        ensures counted { self.new.plan ≡ after_call self.old.plan }
    {
        let fate = self.plan.fate();
        self.plan.count_call();
        if self.take(from, fate) {
            return Ok(from.len());
        }
        self.faults.rise();
        Err(Failed)
    }
}

ghost use Rattle.std.specs.Prelude.{◌≡◌, ◌≤◌, [], OnOk, OnErr, None, false};
ghost use Rattle.jop_outside.specs.Outside.{HasRisen};
ghost use Rattle.jop_outside.specs.Plan.{with_failing};

use crate::connection::serve_connection;
use dav_link::{Link, MemLink};
use jop_base::Bytes;
use jop_outside::{Failed, Faults, Plan, Unread};
use jop_target::{Diary, MemTarget, TargetLine};
use std::alloc::{AllocError, Global};
use std::mem;

/// A link whose other end is a server of one connection over a target in memory. What is written to it is served as
/// soon as it is read, and what is read are the responses. It keeps the allocator that it is made with: want of memory
/// counts as a fault of the link. It tells nothing of what is left or written.
#[derive(Drop)]
pub struct LoopLink {
    pub target: MemTarget,
    /// The calls that were served, with their replies.
    pub diary: Diary,
    alloc: Global,
    asked: Bytes,
    told: Unread,
    opened: u64,
    faults: Faults,
    plan: Plan,
}

impl LoopLink {
    /// It serves this target, and no read or write is to fail.
    pub fn new(alloc: Global, target: MemTarget) -> LoopLink
        ensures target { result.target ≡ target }
        ensures faults { result.faults ≡ 0 }
        ensures plan { result.plan ≡ record { made = 0; failing = [] } }
    {
        LoopLink {
            target,
            diary: Diary::new(alloc),
            alloc,
            asked: Bytes::new(alloc),
            told: Unread::of(Bytes::new(alloc)),
            opened: 0,
            faults: Faults::new(),
            plan: Plan::new(alloc),
        }
    }

    /// The read or write of this number, counted together from 1 at the first, answers `Failed` and does nothing else.
    pub fn fail(&mut self, nth: u64) -> Result<(), AllocError>
        ensures ok { OnOk result (self.new.plan ≡ with_failing self.old.plan nth false) }
        ensures err { OnErr result (self.new.plan ≡ self.old.plan) }
    {
        self.plan.fail(nth, false)
    }

    /// Counts a read or write: whether it is to fail.
    fn is_planned(&mut self) -> bool
        ensures { (self.new.faults ≡ self.old.faults) × (self.new.opened ≡ self.old.opened) }
    {
        let fate = self.plan.fate();
        self.plan.count_call();
        fate.is_some()
    }

    /// Counts a fault.
    fn fault(&mut self) -> Failed
        ensures rose { HasRisen self.old.faults self.new.faults }
        ensures later { self.old.faults ≤ self.new.faults }
        ensures opened { self.new.opened ≡ self.old.opened }
    {
        self.faults.rise();
        Failed
    }

    /// Serves what was asked, and leaves the responses to be read: whether there was memory for it.
    fn serve(&mut self) -> bool
        ensures { (self.new.faults ≡ self.old.faults) × (self.new.opened ≡ self.old.opened) }
    {
        let asked = mem::replace(&mut self.asked, Bytes::new(self.alloc));
        let mut link = MemLink::new(self.alloc, asked);
        let mut line = TargetLine {
            target: &mut self.target,
            diary: &mut self.diary,
        };
        let served = serve_connection(self.alloc, &mut link, &mut line).is_ok();
        self.told = Unread::of(link.into_written());
        served
    }
}

impl Link for LoopLink {
    ghost state = { λ l. record {
      left = None;
      written = None;
      opened = l.opened;
      faults = l.faults;
    } };

    /// Drops what was asked and not served, and what was told and not read.
    fn open(&mut self) -> Result<(), Failed> {
        self.opened = self.opened.saturating_add(1);
        self.asked = Bytes::new(self.alloc);
        self.told = Unread::of(Bytes::new(self.alloc));
        Ok(())
    }

    fn read(&mut self, into: &mut [u8]) -> Result<usize, Failed> {
        if self.is_planned() {
            return Err(self.fault());
        }
        if self.told.as_slice().is_empty() && !self.serve() {
            return Err(self.fault());
        }
        Ok(self.told.give(into))
    }

    fn write(&mut self, from: &[u8]) -> Result<usize, Failed> {
        if self.is_planned() || self.asked.append(from).is_err() {
            return Err(self.fault());
        }
        Ok(from.len())
    }
}

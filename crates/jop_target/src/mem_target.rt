ghost use Rattle.std.specs.Prelude.{◌≡◌, ◌≤◌, IfOk, OnOk, OnErr, Some};
ghost use Rattle.jop_target.specs.Memory.{IsSoundStore, memory_at, with_placed, holding, with_call_to_fail, after_count};
ghost use Rattle.jop_target.specs.Replies.{IsCallable, IsReplyTo, KeepsBlob};
ghost use Rattle.jop_target.specs.Store.{landed_contents, store_reply};
ghost use Rattle.jop_base.specs.Times.{last_time};

use crate::call::Call;
use crate::mem_store::MemStore;
use crate::reply::Reply;
use crate::target::Target;
use crate::tree::Tree;
use jop_base::{Bytes, MAX_TIME, Path};
use jop_outside::{Faults, Plan};
use std::alloc::{AllocError, Global};
use std::marker::Model;

/// A target in memory, which tells what it holds: a store, a clock that goes on at each call, and
/// calls that are to fail.
#[derive(Debug, Drop)]
pub struct MemTarget {
    store: MemStore,
    moment: u64,
    step: u64,
    plan: Plan,
    faults: Faults,
}

impl Model for MemTarget {
    ghost use Rattle.std.specs.Prelude.{◌≤◌};
    ghost use Rattle.jop_base.specs.Times.{last_time};
    ghost use Rattle.jop_target.specs.Memory.{Memory};

    ghost Value = { Memory };

    ghost view = { λ m. record {
      store = record { contents = m.store; moment = m.moment; step = m.step; plan = m.plan };
      faults = m.faults;
    } };

    ghost invariant = { λ m. m.moment ≤ last_time };
}

impl MemTarget {
    /// An empty target. Its first call has the moment `start`, in milliseconds since 1970, or
    /// `MAX_TIME` if that is less. Each later call is `step` milliseconds later, up to `MAX_TIME`.
    pub fn new(alloc: Global, start: u64, step: u64) -> MemTarget
        ensures { result ≡ memory_at start step }
    {
        MemTarget {
            store: MemStore::new(alloc),
            moment: start.min(MAX_TIME),
            step,
            plan: Plan::new(alloc),
            faults: Faults::new(),
        }
    }

    /// Sets a file, written at `stamp`, in milliseconds since 1970. It is no call.
    pub fn place(&mut self, path: Path, content: Bytes, stamp: u64) -> Result<(), AllocError>
        requires { stamp ≤ last_time }
        ensures ok { OnOk result (
            self.new ≡ holding self.old (with_placed self.old.store.contents path content stamp)) }
        ensures err { OnErr result (self.new ≡ self.old) }
    {
        self.store.place(path, content, stamp)?;
        Ok(())
    }

    /// The call of this number, counted from 1 at the first, answers `Failed`, and lands all the
    /// same or doesn't.
    pub fn fail(&mut self, nth: u64, landed: bool) -> Result<(), AllocError>
        ensures ok { OnOk result (self.new ≡ with_call_to_fail self.old nth landed) }
        ensures err { OnErr result (self.new ≡ self.old) }
    {
        self.plan.fail(nth, landed)?;
        Ok(())
    }

    /// The files and folders. Of a blob there is the number of its bytes.
    pub fn tree(&self) -> &Tree
        ensures tree { result.now ≡ self.now.store.contents.tree }
        ensures sound { IsSoundStore self.now.store.contents }
        ensures early { self.now.store.moment ≤ last_time }
    {
        self.store.tree()
    }

    /// What the next call is answered. The bytes of a blob that is got are left in `blob`.
    fn reply(&self, alloc: Global, call: &Call, blob: &mut Bytes) -> Result<Reply, AllocError>
        requires { IsCallable call.now blob.old }
        ensures reply { IfOk result (λ reply. reply ≡ store_reply self.now.store call.now) }
        ensures shape { IfOk result (λ reply. IsReplyTo call.now reply) }
        ensures blob { KeepsBlob (Some self.now.store.contents) call.now blob.old result blob.new }
    {
        match self.plan.fate() {
            Some(_) => Ok(Reply::Failed),
            None => self.store.answer(alloc, call, blob, self.moment),
        }
    }

    /// What the next call changes, which lands unless it is to fail without.
    fn land(&mut self, alloc: Global, call: &Call, blob: &Bytes) -> Result<(), AllocError>
        requires { IsCallable call.now blob.now }
        ensures ok { OnOk result (
            self.new ≡ holding self.old (landed_contents self.old.store call.now blob.now)) }
        ensures err { OnErr result (self.new ≡ self.old) }
    {
        match self.plan.fate() {
            Some(false) => Ok(()),
            _ => {
                self.store.change(alloc, call, blob, self.moment)?;
                Ok(())
            }
        }
    }

    /// The next call was made.
    fn count_call(&mut self)
        ensures count { self.new ≡ after_count self.old }
        ensures later { self.old.faults ≤ self.new.faults }
    {
        if self.plan.fate().is_some() {
            self.faults.rise();
        }
        self.plan.count_call();
        self.moment = self.moment.saturating_add(self.step).min(MAX_TIME);
    }
}

impl Target for MemTarget {
    ghost use Rattle.std.specs.Prelude.{Some};

    ghost state = { λ t. record { store = Some t.store; faults = t.faults } };

    fn call(&mut self, alloc: Global, call: &Call, blob: &mut Bytes) -> Result<Reply, AllocError> {
        let reply = self.reply(alloc, call, blob)?;
        self.land(alloc, call, blob)?;
        self.count_call();
        Ok(reply)
    }
}

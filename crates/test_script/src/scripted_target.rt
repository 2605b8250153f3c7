ghost use Rattle.std.specs.Prelude.{◌≡◌, IfOk, OnOk, None, true};
ghost use Rattle.std.specs.List.{list_all};
ghost use Rattle.jop_target.specs.Replies.{Answers, HasReplyCause, IsCallable, IsReplyTo, KeepsBlob};
ghost use Rattle.test_script.specs.Script.{Steps, after_one, after_script, after_answer};
ghost use Rattle.test_script.specs.Script.{is_scriptable, scripted};

use jop_base::Bytes;
use jop_outside::Faults;
use jop_target::{Call, MemTarget, Reply, Target, Tree};
use std::alloc::{AllocError, Global};
use std::marker::Model;

/// A target in memory to which calls of other clients come, each right before a call of its caller:
/// of several before one call in the order of the script. They take their moments from the target's
/// clock and count among the calls that are to fail, and their replies are nobody's. As a target it
/// tells no store, since what it holds changes between its caller's calls too; it lends its tree.
#[derive(Debug, Drop)]
pub struct ScriptedTarget {
    inner: MemTarget,
    script: Vec<(u64, Call)>,
    /// How many calls its caller has made; at 2^64 - 1 the number stays.
    made: u64,
    /// How often one of its caller's calls failed.
    faults: Faults,
}

impl Model for ScriptedTarget {
    ghost use Rattle.std.specs.Prelude.{◌≡◌, true};
    ghost use Rattle.std.specs.List.{list_all};
    ghost use Rattle.test_script.specs.Script.{Scripted, is_scriptable};

    ghost Value = { Scripted };

    ghost view = { λ t. record {
      store = t.inner.store;
      script = t.script.items;
      made = t.made;
      faults = t.faults;
    } };

    ghost invariant = { λ t. list_all is_scriptable t.script.items ≡ true };
}

impl ScriptedTarget {
    /// Each call of the script has the number of the caller's call, counted from 1, right before
    /// which it is made, and names no blob.
    pub fn new(inner: MemTarget, script: Vec<(u64, Call)>) -> ScriptedTarget
        requires { list_all is_scriptable script.items ≡ true }
        ensures { result ≡ scripted inner.store script.items }
    {
        ScriptedTarget {
            inner,
            script,
            made: 0,
            faults: Faults::new(),
        }
    }

    /// The files and folders. Of a blob there is the number of its bytes.
    pub fn tree(&self) -> &Tree
        ensures { result.now ≡ self.now.store.contents.tree }
    {
        self.inner.tree()
    }

    /// Its caller has made a call that was answered so.
    fn count_call(&mut self, reply: &Reply)
        ensures { self.new ≡ after_answer self.old reply.now }
    {
        self.made = self.made.saturating_add(1);
        if let Reply::Failed = reply {
            self.faults.rise();
        }
    }
}

/// Makes the calls of a script that come before the caller's call of this number.
#[tactic(auto, unfolding(crate::specs::Script::after_script))]
fn make_script(
    alloc: Global,
    inner: &mut MemTarget,
    script: &[(u64, Call)],
    number: u64,
) -> Result<(), AllocError>
    requires { list_all is_scriptable script.now ≡ true }
    ensures { OnOk result (inner.new.store ≡ after_script number script.now inner.old.store) }
{
    for scripted in script {
        make_one(alloc, inner, scripted, number)?;
    }
    Ok(())
}

/// Makes the call if it comes before the caller's call of this number.
fn make_one(
    alloc: Global,
    inner: &mut MemTarget,
    scripted: &(u64, Call),
    number: u64,
) -> Result<(), AllocError>
    requires { is_scriptable scripted.now ≡ true }
    ensures { OnOk result (inner.new.store ≡ after_one number scripted.now inner.old.store) }
{
    if scripted.0 == number {
        let mut blob = Bytes::new(alloc);
        inner.call(alloc, &scripted.1, &mut blob)?;
    }
    Ok(())
}

impl Target for ScriptedTarget {
    ghost use Rattle.std.specs.Prelude.{None};

    ghost state = { λ t. record { store = None; faults = t.faults } };

    fn call(&mut self, alloc: Global, call: &Call, blob: &mut Bytes) -> Result<Reply, AllocError>
        requires { IsCallable call.now blob.old }
        ensures shape { IfOk result (λ reply. IsReplyTo call.now reply) }
        ensures cause { HasReplyCause self.old.faults result self.new.faults }
        ensures answers { Answers None call.now blob.old result None }
        ensures blob { KeepsBlob None call.now blob.old result blob.new }

        // The calls of the script that come before this one land first.
        ensures steps { IfOk result (λ reply. Steps self.old call.now blob.old reply self.new) }
    {
        let number = self.made.saturating_add(1);
        make_script(alloc, &mut self.inner, self.script.as_slice(), number)?;
        let reply = self.inner.call(alloc, call, blob)?;
        self.count_call(&reply);
        Ok(reply)
    }
}

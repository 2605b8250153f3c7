ghost use Rattle.std.specs.Prelude.{◌≡◌, All, Bool, IfErr, None, OnOk, Option, Some, length, true};
ghost use Rattle.client.specs.Sites.{IsSameSite};
ghost use Rattle.jop_target.specs.Trail.{EndsWith};
ghost use Rattle.jop_target.specs.declared.call.Call.{Call};
ghost use Rattle.jop_target.specs.declared.call.Call.TheVariants.{PutBlob};
ghost use Rattle.jop_target.specs.declared.reply.Reply.{Reply};
ghost use Rattle.law_licences.specs.Licences.{MayChange};
ghost use Rattle.law_licences.specs.Views.{Shown, Working, stage_after};
ghost use Rattle.local_store.specs.Sound.{IsAllowed};
ghost use Rattle.keeper.specs.Keepers.{IsBlobOfKept};
ghost use Rattle.session.specs.Asking.{AsksOnce};
ghost use Rattle.session.specs.Doing.{Ends};
ghost use Rattle.session.specs.Making.{IsUnkept};
ghost use Rattle.session.specs.Parts.{Changes};
ghost use Rattle.session.specs.Sessions.{AsksOr, FetchesOr, FindsOr, LoadsOr, MakesEachOr, MakesLicensed, MayAsk, is_whole_step};
ghost use Rattle.session.specs.Work.{IsAtWork, WorkNow, view_of};

use crate::finding::Finding;
use conflicts::StepErr;
use jop_base::{Bytes, Id};
use jop_target::{Call, Reply};
use local_store::{Change, Tables};
use std::alloc::Global;

/// A session at work. All that it does it does by these steps, each of which gives its lease back as it was, renewed if
/// it was due.
///
/// A step's calls are of a sort, of which nothing more is asked.
pub trait Session {
    /// What is known of it.
    ghost now: { Self → WorkNow };

    fn tables(&self) -> &Tables
        ensures { result.now ≡ (now self.now).site.tables };

    /// The last reply.
    fn last(&self) -> &Reply
        requires { (call : Call) × (reply : Reply)
            × EndsWith (now self.now).site.line.trail call reply }
        ensures { (call : Call) (reply : Reply)
            → EndsWith (now self.now).site.line.trail call reply → result.now ≡ reply };

    /// Makes a call that is all of its step.
    fn ask(&mut self, alloc: Global, call: Call) -> Result<(), StepErr>
        requires ready { IsAtWork (now self.old) }
        requires plain { is_whole_step call ≡ true }
        requires may { MayAsk (now self.old) call }

        ensures ends { AsksOr call (now self.old) result (now self.new) }
        ensures once { AsksOnce call (now self.old).site result (now self.new).site }
        ensures same { IsSameSite (now self.old).site (now self.new).site };

    /// Gets the file of an item, and says how it stands to the row of its id. One that can't be read is noted.
    fn find(&mut self, alloc: Global, id: &Id) -> Result<Finding, StepErr>
        requires ready { IsAtWork (now self.old) }

        ensures ends { FindsOr id.now (now self.old) result (now self.new) }
        ensures same { IsSameSite (now self.old).site (now self.new).site };

    /// Gets the bytes of a resource, and saves them if there are any.
    fn fetch(&mut self, alloc: Global, id: &Id) -> Result<(), StepErr>
        requires ready { IsAtWork (now self.old) }

        ensures ends { FetchesOr id.now (now self.old) result (now self.new) };

    /// The bytes of a resource that the keeper has. None if it has none.
    fn load(&mut self, alloc: Global, id: &Id) -> Result<Option<Bytes>, StepErr>
        requires ready { IsAtWork (now self.old) }

        ensures ends { (sort : Call → Bool)
            → LoadsOr id.now sort (now self.old) result (now self.new) };

    /// Puts the bytes of a resource, which are those that the keeper has.
    fn put_bytes(&mut self, alloc: Global, id: &Id, bytes: &mut Bytes) -> Result<(), StepErr>
        requires ready { IsAtWork (now self.old) }
        requires may { MayAsk (now self.old) (PutBlob id.now (length bytes.old)) }
        requires kept { IsBlobOfKept (now self.old).site.keeper.kept id.now (Some bytes.old) }

        ensures ends { AsksOr (PutBlob id.now (length bytes.old)) (now self.old) result
            (now self.new) }
        ensures same { IsSameSite (now self.old).site (now self.new).site };

    /// Makes a change, and counts it. The change has its licence, whatever the session was shown, and isn't its last
    /// one.
    fn make(&mut self, alloc: Global, change: Change) -> Result<(), StepErr>
        requires ready { IsAtWork (now self.old) }
        requires allowed { IsAllowed change }
        requires may { (shown : Option Shown)
            → MayChange (view_of shown (now self.old).site) change }
        requires more { stage_after Working change ≡ Working }

        ensures ends { (sort : Call → Bool)
            → Ends (Changes change) sort (now self.old) result (now self.new) }
        ensures fails { IfErr result IsUnkept };

    /// Makes a change, and counts it, if it has its licence by what the session was shown. It may be the session's last
    /// one.
    fn make_shown(&mut self, alloc: Global, change: Change) -> Result<(), StepErr>
        requires ready { IsAtWork (now self.old) }
        requires allowed { IsAllowed change }

        ensures ends { MakesLicensed change (now self.old) result (now self.new) }
        ensures fails { IfErr result IsUnkept }
        ensures ready { OnOk result (IsAtWork (now self.new)) };

    /// Makes changes one after the other, if each has its licence at its turn.
    fn make_each(&mut self, alloc: Global, changes: &[Change]) -> Result<(), StepErr>
        requires ready { IsAtWork (now self.old) }
        requires allowed { All IsAllowed changes.now }

        ensures ends { MakesEachOr changes.now (now self.old) result (now self.new) };

    /// What it was shown isn't told of it: who knows it says so.
    ghost unshown: { (s : Self) → (now s).known ≡ None };
}

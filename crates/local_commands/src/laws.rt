//! What every command leaves, by what a run comes to. Each law is a function with nothing to do, whose
//! contract says it.

ghost use Rattle.std.specs.Prelude.{◌≡◌, List, Option, false};
ghost use Rattle.client.specs.Outside.{OutsideNow};
ghost use Rattle.keeper.specs.Keepers.{Kept};
ghost use Rattle.local_store.specs.Changing.{after_all};
ghost use Rattle.local_commands.specs.Commands.{plan_of};
ghost use Rattle.local_commands.specs.Following.{Follows, FollowsChanges, IsRefusedEarly};
ghost use Rattle.local_commands.specs.Following.{IsUnhindered, IsWellOrMemory, OfEachRun};
ghost use Rattle.local_commands.specs.Keeping.{AreDone, AreNoted, changes_among, kept_after_all};
ghost use Rattle.local_commands.specs.Licences.{NotesLicensed};
ghost use Rattle.local_commands.specs.Running.{IsUnsaved};
ghost use Rattle.local_commands.specs.declared.act.Act.{Act};
ghost use Rattle.local_commands.specs.declared.command.LocalCommand.{LocalCommand};
ghost use Rattle.local_commands.specs.declared.local_err.LocalErr.{LocalErr};
ghost use Rattle.local_store.specs.declared.tables.Tables.{Tables};

/// Whatever a command answers, what is kept is what some acts made of it, and the changes among them are
/// written down.
#[tactic(auto, using(crate::proofs::Leaving::follows))]
pub fn runs_follow_their_acts()
    ensures { OfEachRun (λ command old answer new. Follows old new) }
{}

/// The tables that are kept after acts are those before them, after the changes among the acts.
#[tactic(auto, using(crate::proofs::Leaving::tables_after))]
pub fn acts_change_tables_by_their_changes()
    ensures { (acts : List Act) (k : Kept) →
        (kept_after_all acts k).tables ≡ after_all k.tables (changes_among acts) }
{}

/// The changes among acts that were done are written down, in their order, and their numbers in the trail.
pub fn acts_note_their_changes()
    ensures { (acts : List Act) (old new : OutsideNow) →
        AreDone acts old new → AreNoted (changes_among acts) old new }
{}

/// A command whose plan saves no bytes of a resource saves none: what is kept is what was kept, after the
/// changes that are written down.
#[tactic(auto, using(crate::proofs::UserActs::follows_changes))]
pub fn only_plans_with_bytes_save_some()
    ensures { OfEachRun (λ command old answer new.
        (plan_of command).bytes ≡ false → FollowsChanges old new) }
{}

/// Whatever a command answers, each change that it made has its licence.
#[tactic(auto, using(crate::proofs::UserActs::makes_licensed))]
pub fn commands_make_licensed_changes()
    ensures { OfEachRun (λ command old answer new. NotesLicensed old new) }
{}

/// A refusal, but for the keeper's and for want of memory, comes before anything is saved.
#[tactic(auto, using(crate::proofs::Leaving::unsaved))]
pub fn refusals_leave_all_as_it_was()
    ensures { OfEachRun (λ command old answer new. IsRefusedEarly answer → IsUnsaved old new) }
{}

/// A command that nothing hinders goes well, unless memory runs out: its keeper tells tables that allow it,
/// its input tells bytes that fit, what is made of them isn't refused, and no count of faults rises.
#[tactic(auto, using(crate::proofs::Unhindered::goes_well))]
pub fn unhindered_runs_go_well()
    ensures { OfEachRun (λ command old answer new.
        IsUnhindered (plan_of command) old new → IsWellOrMemory answer) }
{}

/// The tables refuse a command or they don't: they don't do both.
#[tactic(auto, using(crate::proofs::Unhindered::one_answer))]
pub fn tables_give_one_answer()
    ensures { (command : LocalCommand) (t : Tables) (one other : Option LocalErr) →
        (plan_of command).Checks t one → (plan_of command).Checks t other → one ≡ other }
{}

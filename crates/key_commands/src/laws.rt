//! What every command on keys leaves, by what a run comes to. Each law is a function with nothing to do, whose contract
//! says it.

ghost use Rattle.key_commands.specs.Hindering.{IsDoneOrMemory, IsKeyUnhindered};
ghost use Rattle.key_commands.specs.Leaving.{ChangesInfo, IsEarlyRefusal, OfEachKeyRun, SparesBeside};
ghost use Rattle.local_commands.specs.Running.{IsUnsaved};

/// Whatever a command answers, nothing is changed but the info, once at most, and that is written down.
#[tactic(auto, using(crate::proofs::Leaving::changes_info))]
pub fn keys_change_the_info_alone()
    ensures { OfEachKeyRun (λ command old answer new. ChangesInfo old new) }
{}

/// Whatever a command answers, the clock and the random source are as they were, but of a command that uses them.
#[tactic(auto, using(crate::proofs::Leaving::spares_beside))]
pub fn keys_spare_what_they_do_not_use()
    ensures { OfEachKeyRun (λ command old answer new. SparesBeside command old new) }
{}

/// A refusal, but for the keeper's and for want of memory, comes before anything is saved.
#[tactic(auto, using(crate::proofs::Leaving::unsaved_early))]
pub fn key_refusals_leave_all_as_it_was()
    ensures { OfEachKeyRun (λ command old answer new. IsEarlyRefusal answer → IsUnsaved old new) }
{}

/// A command that nothing hinders goes well, unless memory runs out: its keeper tells what allows it, and no count of
/// faults rises.
#[tactic(auto, using(crate::proofs::Unhindered::keys_go_well))]
pub fn unhindered_keys_go_well()
    ensures { OfEachKeyRun (λ command old answer new.
        IsKeyUnhindered command old new → IsDoneOrMemory answer) }
{}

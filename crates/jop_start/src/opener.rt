ghost use Rattle.std.specs.Prelude.{◌≡◌, Err, IfOk, OnErr, true};
ghost use Rattle.jop_start.specs.Opening.{OpenNow, WhileOpen, is_folder_kind};
ghost use Rattle.jop_words.specs.declared.profile.Profile.{Profile};
ghost use Rattle.jop_words.specs.declared.target_name.TargetKind.{TargetKind};

use crate::start_err::StartErr;
use crate::work::Work;
use jop_words::{Profile, TargetKind};
use std::alloc::Global;

/// What opens the file of tables and the target of a run, lends them to it, and closes them.
pub trait Opener {
    /// From the one to the other it opened the tables of this profile and a target of this kind, once.
    /// They were first so, and then so when it closed them.
    ghost opens: { Self → Self → Profile → TargetKind → OpenNow → OpenNow → Type 0 };

    /// Opens the tables of this profile and a target of this kind, has the work done on them, and closes
    /// them. It gives the exit status that the work gives.
    ///
    /// `EntropyFault` if no name could be drawn for the temporary files of a folder, `NoMemory` if the
    /// file or the target couldn't be named. Then the work isn't done, and the opener is as it was.
    fn open<W: Work>(
        &mut self,
        alloc: Global,
        profile: Profile,
        kind: TargetKind,
        work: &mut W,
    ) -> Result<u8, StartErr>
        ensures works { IfOk result (λ exit.
            WhileOpen (opens self.old self.new profile kind) (W.does work.old work.new exit)) }
        ensures drawn { result ≡ Err StartErr.EntropyFault → is_folder_kind kind ≡ true }
        ensures idle { OnErr result (work.new ≡ work.old) }
        ensures unopened { OnErr result (self.new ≡ self.old) };
}

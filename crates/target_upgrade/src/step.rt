ghost use Rattle.std.specs.Prelude.{◌≡◌, true, IfOk};
ghost use Rattle.std.specs.Str.{is_utf8};
ghost use Rattle.sync_info.specs.Info.{IsInfo};
ghost use Rattle.sync_info.specs.Json.{info_text};
ghost use Rattle.target_upgrade.specs.Course.{puts_text};
ghost use Rattle.target_upgrade.specs.Steps.{at_version, step_call};

use jop_base::{Bytes, Copied, Dir, Path};
use jop_target::Call;
use std::alloc::{AllocError, Global};
use sync_info::{Info, write_info};

/// The calls of an upgrade of which each comes once, in their order. The first three bring a target
/// from version 0 to 1, the next four to 2.
#[derive(Clone, Copy, Debug, PartialEq, Eq)]
pub enum Step {
    MakesResources,
    MakesOldSync,
    /// `version.txt` says 1.
    PutsOne,
    MakesLocks,
    MakesTemp,
    /// It says 2.
    PutsTwo,
    /// And so does `info.json`.
    PutsInfo,
    ListsRoot,
}

impl Step {
    /// The call, by the target's info as it is so far.
    pub(crate) fn call(self, alloc: Global, info: &Info) -> Result<Call, AllocError>
        requires { IsInfo info.now }
        ensures call { IfOk result (λ call. call ≡ step_call self info.now) }
        ensures text { IfOk result (λ call. puts_text call ≡ true) }
    {
        match self {
            Step::MakesResources => Ok(Call::MakeDir(Dir::Resources)),
            Step::MakesOldSync => Ok(Call::MakeDir(Dir::OldSync)),
            Step::PutsOne => Ok(Call::Put(Path::OldVersion, bytes_of(alloc, b"1")?)),
            Step::MakesLocks => Ok(Call::MakeDir(Dir::Locks)),
            Step::MakesTemp => Ok(Call::MakeDir(Dir::Temp)),
            Step::PutsTwo => Ok(Call::Put(Path::OldVersion, bytes_of(alloc, b"2")?)),
            Step::PutsInfo => Ok(Call::Put(Path::Info, second_info(alloc, info)?)),
            Step::ListsRoot => Ok(Call::List(Dir::Root)),
        }
    }
}

fn bytes_of(alloc: Global, text: &[u8]) -> Result<Bytes, AllocError>
    ensures { IfOk result (λ bytes. bytes ≡ text.now) }
{
    Ok(Bytes::from_vec(text.to_vec(alloc)?))
}

/// The text of the info at version 2.
fn second_info(alloc: Global, info: &Info) -> Result<Bytes, AllocError>
    requires { IsInfo info.now }
    ensures text { IfOk result (λ bytes. bytes ≡ info_text (at_version 2 info.now)) }
    ensures utf8 { IfOk result (λ bytes. is_utf8 bytes ≡ true) }
{
    let mut second = info.copy(alloc)?;
    second.version = 2;
    write_info(alloc, &second)
}

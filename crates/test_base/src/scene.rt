use crate::asking::ask;
use crate::folder::{empty_folder, target_over};
use crate::past::{Deed, Sight};
use crate::step::Step;
use std::fs;
use std::test::Fail;
use target_files::FolderTarget;

/// A move of a test. A name is that of a file in the folder of the target.
#[derive(Clone, Copy)]
pub(crate) enum Move {
    /// Something is done past the target.
    Do(Deed, &'static str),
    /// The target is asked.
    Ask(Step),
    /// Something is looked for past the target.
    See(Sight, &'static str),
}

fn act(rt: &HostRuntime, folder: &str, deed: Deed, name: &str) -> Result<String, Fail> {
    deed.act_in(rt, folder, name)?;
    Ok(String::new(rt.alloc()))
}

/// The line that a move tells. A deed tells none.
fn play(
    rt: &HostRuntime,
    folder: &str,
    target: &mut FolderTarget<HostRuntime>,
    made: Move,
) -> Result<String, Fail> {
    match made {
        Move::Do(deed, name) => act(rt, folder, deed, name),
        Move::Ask(step) => ask(rt.alloc(), target, step),
        Move::See(sight, name) => Ok(sight.tell_in(rt, folder, name)?),
    }
}

fn play_all(
    rt: &HostRuntime,
    folder: &str,
    target: &mut FolderTarget<HostRuntime>,
    moves: &[Move],
) -> Result<String, Fail> {
    let mut said = String::new(rt.alloc());
    for made in moves {
        said.push_str(play(rt, folder, target, *made)?.as_str())?;
    }
    Ok(said)
}

fn play_in(rt: &HostRuntime, folder: &str, moves: &[Move]) -> Result<String, Fail> {
    let mut target = target_over(rt, folder)?;
    let said = play_all(rt, folder, &mut target, moves)?;
    Ok(format!(in rt.alloc(); "{said}faults {}\n", target.faults())?)
}

/// What moves over an empty folder tell, and last how often the target has failed.
fn told_of(rt: &HostRuntime, moves: &[Move]) -> Result<String, Fail> {
    let folder = empty_folder(rt)?;
    let said = play_in(rt, folder.as_str(), moves)?;
    fs::remove_dir_all(rt, folder.as_str())?;
    Ok(said)
}

/// Moves over an empty folder, and what they are to tell.
#[derive(Clone, Copy)]
pub(crate) struct Scene {
    pub moves: &'static [Move],
    pub said: &'static str,
}

impl Scene {
    /// Fails with what the moves tell, if it is something else.
    pub(crate) fn play(&self, rt: &HostRuntime) -> Result<(), Fail> {
        let said = told_of(rt, self.moves)?;
        if said.as_str() == self.said {
            Ok(())
        } else {
            Err(Fail::new(format_args!("told {:?}", said.as_str())))
        }
    }
}

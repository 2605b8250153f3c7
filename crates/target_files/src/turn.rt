use crate::trouble::{Trouble, found};
use std::fs::{self, File, TryLockError};
use std::io;
use std::rt::{Clock, Files};
use std::thread::sleep;
use std::time::Duration;

/// How often a turn is asked for, and how many milliseconds are waited before it is asked for again: a second in all.
const ASKS: usize = 500;

const PAUSE: u64 = 2;

/// Who else may have a turn at the same time.
#[derive(Clone, Copy, Debug, PartialEq, Eq)]
pub enum Turn {
    /// Nobody.
    Alone,
    /// Whoever shares it.
    Shared,
}

/// What is open of a file or a folder at which runs of a program take turns.
pub trait TakesTurns {
    /// Takes a turn that lasts until it is closed. False where others have theirs.
    fn take_turn(&self, turn: Turn) -> io::Result<bool>;
}

impl TakesTurns for File {
    fn take_turn(&self, turn: Turn) -> io::Result<bool> {
        let taken = match turn {
            Turn::Alone => self.try_lock(),
            Turn::Shared => self.try_lock_shared(),
        };
        match taken {
            Ok(()) => Ok(true),
            Err(TryLockError::WouldBlock) => Ok(false),
            Err(TryLockError::Error(error)) => Err(error),
        }
    }
}

/// Takes a turn at a folder, which lasts as long as what is given. None where the folder isn't there, where the system
/// has no turns, and where others keep theirs for a second: a turn spares readings, and nothing rests on it.
pub(crate) fn turn_at<R: Files + Clock>(
    rt: &R,
    folder: &str,
    turn: Turn,
) -> Result<Option<R::File>, Trouble>
where
    R::File: TakesTurns,
{
    let Some(folder) = found(fs::open(rt, folder))? else {
        return Ok(None);
    };
    for _ in 0..ASKS {
        match folder.take_turn(turn) {
            Ok(true) => return Ok(Some(folder)),
            Ok(false) => sleep(rt, Duration::from_millis(PAUSE)),
            Err(_) => return Ok(None),
        }
    }
    Ok(None)
}

ghost use Rattle.std.specs.Prelude.{◌≡◌, IfOk, Some};
ghost use Rattle.jop_words.specs.Commands.{profile_at, profile_in, profile_words};

use crate::command::{Command, WordsErr, read_words};
use crate::words::Words;
use jop_base::{Text, let_go};
use std::alloc::{AllocError, Global};

/// Where the tables are kept.
#[derive(Debug, Drop)]
pub enum Profile {
    /// Nowhere: they are gone when the program ends.
    Memory,
    /// A file, by its path.
    File(Text),
}

/// Where the tables are kept: for words of a command that uses them, the file that they name, or
/// `jop.sqlite`; nowhere for `:memory:` and for all other words.
pub fn profile_words(alloc: Global, words: &Words) -> Result<Profile, AllocError>
    ensures { IfOk result (λ profile. profile ≡ profile_words words.now.list) }
{
    match read_words(alloc, words) {
        Ok(command) => profile_of(alloc, command),
        Err(WordsErr::Usage) => Ok(Profile::Memory),
        Err(WordsErr::NoMemory) => Err(AllocError),
    }
}

fn profile_of(alloc: Global, command: Command) -> Result<Profile, AllocError>
    ensures { IfOk result (λ profile. profile ≡ profile_in (Some command)) }
{
    let Command { profile, verb } = command;
    let used = verb.uses_tables();
    let_go(verb);
    if used {
        profile_at(alloc, profile)
    } else {
        Ok(Profile::Memory)
    }
}

/// The file of a path, or that of the default.
fn profile_at(alloc: Global, path: Option<Text>) -> Result<Profile, AllocError>
    ensures { IfOk result (λ profile. profile ≡ profile_at path) }
{
    match path {
        Some(path) if path.as_str() == ":memory:" => Ok(Profile::Memory),
        Some(path) => Ok(Profile::File(path)),
        None => Ok(Profile::File(Text::of(alloc, "jop.sqlite")?)),
    }
}

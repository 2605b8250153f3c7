ghost use Rattle.std.specs.Prelude.{◌≡◌, ◌∷◌, [], IfErr, IfOk, List, Some, codes, map, ℕ};
ghost use Rattle.clap.specs.Words.{app_of, first_of, found_of, kind_of, rows_of};
ghost use Rattle.hall_words.specs.Plain.{IsPlainWord};
ghost use Rattle.hall_words.specs.Three.{three_words};

use clap::error::ErrorKind;
use clap::{Arg, ArgAction, ArgMatches, Command, Error};
use std::alloc::Global;

/// A command of three words, all of which have to be there. It has no flags.
fn three_words<'a>(alloc: Global) -> Result<Command<'a>, Error>
    ensures err { IfErr result (λ e. kind_of e ≡ ErrorKind.OutOfMemory) }
    ensures ok { IfOk result (λ command. app_of command ≡ three_words) }
{
    let mode = Arg::new(alloc, "mode")
        .required(true)
        .action(ArgAction::Set);
    let number = Arg::new(alloc, "number")
        .required(true)
        .action(ArgAction::Set);
    let count = Arg::new(alloc, "count")
        .required(true)
        .action(ArgAction::Set);
    let command = Command::new(alloc, "jop_hall")
        .no_binary_name(true)
        .disable_help_flag(true)
        .disable_version_flag(true)
        .arg(mode)?
        .arg(number)?
        .arg(count)?;
    Ok(command)
}

/// Reads three words, each of which has a letter and doesn't begin with a hyphen. There are no flags,
/// so it fails for want of memory alone.
pub fn match_words<'a>(alloc: Global, words: &'a [&'a str]) -> Result<ArgMatches<'a>, Error>
    ensures err { (first second third : List ℕ) →
        map (λ w. w.now) words.entry.now ≡ first ∷ second ∷ third ∷ [] →
        IsPlainWord first → IsPlainWord second → IsPlainWord third →
        IfErr result (λ e. kind_of e ≡ ErrorKind.OutOfMemory) }
    ensures ok { (first second third : List ℕ) →
        map (λ w. w.now) words.entry.now ≡ first ∷ second ∷ third ∷ [] →
        IsPlainWord first → IsPlainWord second → IsPlainWord third →
        IfOk result (λ m. (first_of (codes "mode") (rows_of (found_of m)) ≡ Some first)
        × (first_of (codes "number") (rows_of (found_of m)) ≡ Some second)
        × (first_of (codes "count") (rows_of (found_of m)) ≡ Some third)) }
{
    three_words(alloc)?.try_get_matches_from(words)
}

ghost use Rattle.std.specs.Prelude.{◌≡◌, None, Some, IfOk, IfSome};
ghost use Rattle.jop_words.specs.Commands.{command_of, with_profile};
ghost use Rattle.jop_words.specs.Verbs.{IsFit, verb_of};

use crate::verb::{Verb, read_verb};
use crate::words::Words;
use jop_base::{Copied, Text};
use std::alloc::{AllocError, Global};

/// What the words on the command line mean.
#[derive(Debug, Drop)]
pub struct Command {
    /// The file that keeps the tables, if the words name one.
    pub profile: Option<Text>,
    pub verb: Verb,
}

/// Why words are no command.
#[derive(Clone, Copy, Debug, PartialEq, Eq)]
pub enum WordsErr {
    Usage,
    NoMemory,
}

impl From<AllocError> for WordsErr {
    ghost use Rattle.std.specs.Prelude.{◌≡◌};
    ghost use Rattle.jop_words.specs.declared.command.WordsErr.TheVariants.{NoMemory};

    ghost from_gives = { λ _ e. e ≡ NoMemory };

    fn from(_error: AllocError) -> WordsErr {
        WordsErr::NoMemory
    }
}

/// What the words mean. `Usage` exactly when they mean nothing. Accepted are, each word at its place:
///
/// - `help`; `version`; `tidy`; `check TARGET CLIENT`; `sync TARGET`; `upgrade TARGET`;
/// - `blob ID`; `blob ID --password PASSWORD`; `keys`; `keys --new PASSWORD`; `keys --use KEY`;
/// - `add BOOK TITLE`; `attach NAME MIME`; `cat ID`; `conflicts`; `conflicts --clear N`;
///   `conflicts --show N`; `edit ID`; `edit ID --title TITLE`; `find TEXT`; `ls`; `ls BOOK`;
///   `ls --tag ID`; `mkbook TITLE`; `mkbook TITLE --in BOOK`; `move ID BOOK`; `rename ID TITLE`;
///   `resources`; `rm ID`; `tag ID TITLE`; `tags`; `trash`; `untag ID TAG`.
///
/// TARGET is `mem:`, `dir:PATH` with a path that isn't empty, `dav:URL` with a URL that names a
/// server, or `webdav:URL` with one that names a folder on a server. CLIENT and KEY are ids; BOOK, ID
/// and TAG are ids or the first 4 to 31 digits of one. PASSWORD is any text. TITLE, NAME and
/// MIME have no line feed or carriage return, MIME has no blanks at its ends, and TEXT is any. N is 1 to
/// 20 decimal digits, below 2^64.
/// `--profile PATH` may stand before each.
pub fn read_words(alloc: Global, words: &Words) -> Result<Command, WordsErr>
    ensures ok { IfOk result (λ command. command_of words.now.list ≡ Some command) }
    ensures fit { IfOk result (λ command. IsFit command.verb) }
    ensures usage { result ≡ Err WordsErr.Usage → command_of words.now.list ≡ None }
{
    match read_command(alloc, words.list.as_slice())? {
        Some(command) => Ok(command),
        None => Err(WordsErr::Usage),
    }
}

fn read_command(alloc: Global, words: &[Text]) -> Result<Option<Command>, AllocError>
    ensures means { IfOk result (λ command. command ≡ command_of words.now) }
    ensures fit { IfOk result (λ command. IfSome command (λ c. IsFit c.verb)) }
{
    match words {
        [option, path, words @ ..] if option.as_str() == "--profile" => {
            read_with(alloc, Some(path.copy(alloc)?), words)
        }
        words => read_with(alloc, None, words),
    }
}

/// The command of this profile that words mean.
fn read_with(
    alloc: Global,
    profile: Option<Text>,
    words: &[Text],
) -> Result<Option<Command>, AllocError>
    ensures means { IfOk result (λ command. command ≡ with_profile profile (verb_of words.now)) }
    ensures fit { IfOk result (λ command. IfSome command (λ c. IsFit c.verb)) }
{
    match read_verb(alloc, words)? {
        Some(verb) => Ok(Some(Command { profile, verb })),
        None => Ok(None),
    }
}

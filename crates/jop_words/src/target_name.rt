ghost use Rattle.std.specs.Prelude.{◌≡◌, IfOk};
ghost use Rattle.jop_words.specs.Commands.{target_words};

use crate::command::{WordsErr, read_words};
use crate::words::Words;
use dav_address::SiteName;
use jop_base::Text;
use std::alloc::{AllocError, Global};

/// A target as a word names it.
#[derive(Debug, Drop)]
pub struct TargetName {
    pub text: Text,
    pub kind: TargetKind,
}

#[derive(Debug, Drop)]
pub enum TargetKind {
    /// `mem:`, a target in memory that is gone when the program ends.
    Mem,
    /// `dir:PATH`, a folder.
    Dir(Text),
    /// `dav:URL`, a WebDAV server, by its `host:port`.
    Dav(Text),
    /// `webdav:URL`, a folder on a WebDAV server of any make.
    WebDav(SiteName),
}

/// The target of the words, exactly when they mean a command that has one.
pub fn target_words(alloc: Global, words: &Words) -> Result<Option<TargetName>, AllocError>
    ensures { IfOk result (λ target. target ≡ target_words words.now.list) }
{
    match read_words(alloc, words) {
        Ok(command) => Ok(command.verb.target()),
        Err(WordsErr::Usage) => Ok(None),
        Err(WordsErr::NoMemory) => Err(AllocError),
    }
}

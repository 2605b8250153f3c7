ghost use Rattle.std.specs.Prelude.{◌≡◌, IfOk, IfSome, option_map};
ghost use Rattle.jop_words.specs.Keys.{blob_words, keys_words};
ghost use Rattle.jop_words.specs.Local.{local_words};
ghost use Rattle.jop_words.specs.Verbs.{IsFit, check_for, check_words, sync_of, sync_words};
ghost use Rattle.jop_words.specs.Verbs.{target_in, uses_tables};
ghost use Rattle.jop_words.specs.Verbs.{upgrade_of, upgrade_words, verb_alone, verb_of};
ghost use Rattle.jop_words.specs.Words.{word_id, word_target};
ghost use Rattle.jop_words.specs.declared.verb.Verb.TheVariants as verbs;

use crate::target_name::TargetName;
use crate::words::{read_id, read_target};
use crate::{keys, local};
use jop_base::{ClientId, Text, let_go};
use key_commands::KeyCommand;
use local_commands::LocalCommand;
use std::alloc::{AllocError, Global};

/// What a command does.
#[derive(Debug, Drop)]
pub enum Verb {
    /// Takes a sync lock on the target for the client, and releases it.
    Check {
        target: TargetName,
        client: ClientId,
    },
    /// Prints how the program is called.
    Help,
    /// Works on the master keys of this machine's tables.
    Keys(KeyCommand),
    /// Works on this machine's own tables.
    Local(LocalCommand),
    /// Brings the tables and the target together, for the client that the tables name.
    Sync {
        target: TargetName,
    },
    /// Reads the text of an item from the input and prints its canonical text.
    Tidy,
    /// Brings the target to the supported version.
    Upgrade {
        target: TargetName,
    },
    /// Prints the name of the program and its version.
    Version,
}

impl Verb {
    /// The target that it names.
    pub(crate) fn target(self) -> Option<TargetName>
        ensures { result ≡ target_in self }
    {
        match self {
            Verb::Check { target, client: _ } => Some(target),
            Verb::Sync { target } => Some(target),
            Verb::Upgrade { target } => Some(target),
            _ => None,
        }
    }

    /// Whether it uses this machine's own tables.
    pub(crate) fn uses_tables(&self) -> bool
        ensures { result ≡ uses_tables self.now }
    {
        matches!(
            self,
            Verb::Keys(_) | Verb::Local(_) | Verb::Sync { target: _ } | Verb::Upgrade { target: _ }
        )
    }
}

/// A row for each command: its first word, and who reads the others.
pub(crate) fn read_verb(alloc: Global, words: &[Text]) -> Result<Option<Verb>, AllocError>
    ensures means { IfOk result (λ verb. verb ≡ verb_of words.now) }
    ensures fit { IfOk result (λ verb. IfSome verb IsFit) }
{
    let Some((word, words)) = words.split_first() else {
        return Ok(None);
    };
    match word.as_str() {
        "blob" => read_blob(alloc, words),
        "check" => read_check(alloc, words),
        "help" => Ok(alone(Verb::Help, words)),
        "keys" => read_keys(alloc, words),
        "sync" => read_sync(alloc, words),
        "tidy" => Ok(alone(Verb::Tidy, words)),
        "upgrade" => read_upgrade(alloc, words),
        "version" => Ok(alone(Verb::Version, words)),
        _ => read_local(alloc, word, words),
    }
}

/// A command with no words behind its first one.
fn alone(verb: Verb, words: &[Text]) -> Option<Verb>
    ensures means { result ≡ verb_alone verb words.now }
    ensures fit { IsFit verb → IfSome result IsFit }
{
    if words.is_empty() {
        return Some(verb);
    }
    let_go(verb);
    None
}

fn read_local(alloc: Global, word: &Text, words: &[Text]) -> Result<Option<Verb>, AllocError>
    ensures means { IfOk result
        (λ verb. verb ≡ option_map verbs.Local (local_words word.now words.now)) }
    ensures fit { IfOk result (λ verb. IfSome verb IsFit) }
{
    match local::read(alloc, word, words)? {
        Some(command) => Ok(Some(Verb::Local(command))),
        None => Ok(None),
    }
}

/// A resource, and perhaps a password.
fn read_blob(alloc: Global, words: &[Text]) -> Result<Option<Verb>, AllocError>
    ensures means { IfOk result (λ verb. verb ≡ option_map verbs.Keys (blob_words words.now)) }
    ensures fit { IfOk result (λ verb. IfSome verb IsFit) }
{
    match keys::read_blob(alloc, words)? {
        Some(command) => Ok(Some(Verb::Keys(command))),
        None => Ok(None),
    }
}

/// Nothing, or what is to be done with master keys.
fn read_keys(alloc: Global, words: &[Text]) -> Result<Option<Verb>, AllocError>
    ensures means { IfOk result (λ verb. verb ≡ option_map verbs.Keys (keys_words words.now)) }
    ensures fit { IfOk result (λ verb. IfSome verb IsFit) }
{
    match keys::read_keys(alloc, words)? {
        Some(command) => Ok(Some(Verb::Keys(command))),
        None => Ok(None),
    }
}

/// A target and a client.
fn read_check(alloc: Global, words: &[Text]) -> Result<Option<Verb>, AllocError>
    ensures means { IfOk result (λ verb. verb ≡ check_words words.now) }
    ensures fit { IfOk result (λ verb. IfSome verb IsFit) }
{
    match words {
        [target, client] => read_check_of(alloc, target, client),
        _ => Ok(None),
    }
}

fn read_check_of(alloc: Global, target: &Text, client: &Text) -> Result<Option<Verb>, AllocError>
    ensures means { IfOk result
        (λ verb. verb ≡ check_for (word_target target.now) (word_id client.now)) }
    ensures fit { IfOk result (λ verb. IfSome verb IsFit) }
{
    let Some(client) = read_id(client) else {
        return Ok(None);
    };
    let Some(target) = read_target(alloc, target)? else {
        return Ok(None);
    };
    Ok(Some(Verb::Check { target, client }))
}

/// A target, to sync with.
fn read_sync(alloc: Global, words: &[Text]) -> Result<Option<Verb>, AllocError>
    ensures means { IfOk result (λ verb. verb ≡ sync_words words.now) }
    ensures fit { IfOk result (λ verb. IfSome verb IsFit) }
{
    match words {
        [target] => read_sync_with(alloc, target),
        _ => Ok(None),
    }
}

fn read_sync_with(alloc: Global, target: &Text) -> Result<Option<Verb>, AllocError>
    ensures means { IfOk result (λ verb. verb ≡ sync_of (word_target target.now)) }
    ensures fit { IfOk result (λ verb. IfSome verb IsFit) }
{
    match read_target(alloc, target)? {
        Some(target) => Ok(Some(Verb::Sync { target })),
        None => Ok(None),
    }
}

/// A target, to upgrade.
fn read_upgrade(alloc: Global, words: &[Text]) -> Result<Option<Verb>, AllocError>
    ensures means { IfOk result (λ verb. verb ≡ upgrade_words words.now) }
    ensures fit { IfOk result (λ verb. IfSome verb IsFit) }
{
    match words {
        [target] => read_upgrade_of(alloc, target),
        _ => Ok(None),
    }
}

fn read_upgrade_of(alloc: Global, target: &Text) -> Result<Option<Verb>, AllocError>
    ensures means { IfOk result (λ verb. verb ≡ upgrade_of (word_target target.now)) }
    ensures fit { IfOk result (λ verb. IfSome verb IsFit) }
{
    match read_target(alloc, target)? {
        Some(target) => Ok(Some(Verb::Upgrade { target })),
        None => Ok(None),
    }
}

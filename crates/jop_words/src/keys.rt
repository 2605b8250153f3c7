ghost use Rattle.std.specs.Prelude.{◌≡◌, IfOk, option_map};
ghost use Rattle.jop_words.specs.Keys.{blob_plain, blob_under, blob_words, keys_words};
ghost use Rattle.jop_words.specs.Words.{word_id};
ghost use Rattle.key_commands.specs.declared.key_command.KeyCommand.TheVariants as commands;
ghost use Rattle.local_commands.specs.TypedIds.{typed_id};

use crate::words::{read_id, read_typed};
use jop_base::{Copied, Text};
use key_commands::KeyCommand;
use std::alloc::{AllocError, Global};

/// A resource, and a password if one is given.
pub(crate) fn read_blob(alloc: Global, words: &[Text]) -> Result<Option<KeyCommand>, AllocError>
    ensures { IfOk result (λ command. command ≡ blob_words words.now) }
{
    match words {
        [id] => Ok(read_plain(id)),
        [id, option, password] if option.as_str() == "--password" => {
            read_under(alloc, id, password)
        }
        _ => Ok(None),
    }
}

fn read_plain(id: &Text) -> Option<KeyCommand>
    ensures { result ≡ option_map blob_plain (typed_id id.now) }
{
    Some(KeyCommand::Blob {
        id: read_typed(id)?,
        password: None,
    })
}

fn read_under(alloc: Global, id: &Text, password: &Text) -> Result<Option<KeyCommand>, AllocError>
    ensures { IfOk result
        (λ command. command ≡ option_map (blob_under password.now) (typed_id id.now)) }
{
    let Some(id) = read_typed(id) else {
        return Ok(None);
    };
    let password = Some(password.copy(alloc)?);
    Ok(Some(KeyCommand::Blob { id, password }))
}

/// Nothing, a password for a new key, or the id of the key that is to be used.
pub(crate) fn read_keys(alloc: Global, words: &[Text]) -> Result<Option<KeyCommand>, AllocError>
    ensures { IfOk result (λ command. command ≡ keys_words words.now) }
{
    match words {
        [] => Ok(Some(KeyCommand::List)),
        [option, password] if option.as_str() == "--new" => {
            let password = password.copy(alloc)?;
            Ok(Some(KeyCommand::New { password }))
        }
        [option, id] if option.as_str() == "--use" => Ok(read_use(id)),
        _ => Ok(None),
    }
}

fn read_use(id: &Text) -> Option<KeyCommand>
    ensures { result ≡ option_map commands.Use (word_id id.now) }
{
    Some(KeyCommand::Use { id: read_id(id)? })
}

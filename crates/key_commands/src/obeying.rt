ghost use Rattle.std.specs.Prelude.{◌≡◌};
ghost use Rattle.client.specs.Outside.{AreKeptTables};
ghost use Rattle.key_commands.specs.Commands.{RunsKeysOn};
ghost use Rattle.key_commands.specs.Commands.Keys.{ListsKeys};
ghost use Rattle.key_commands.specs.Running.{RunsKeys};
ghost use Rattle.local_store.specs.Sound.{IsSound};

use crate::command::blob::show_blob;
use crate::command::new::new_key;
use crate::command::use_key::use_key;
use crate::key_command::KeyCommand;
use crate::keys_err::KeysErr;
use crate::vault::Vault;
use jop_base::Bytes;
use key_records::list_keys;
use local_store::Tables;
use std::alloc::Global;

/// Does what a command on keys says, and answers the text that it prints.
pub fn obey<V: Vault>(alloc: Global, vault: &mut V, command: KeyCommand) -> Result<Bytes, KeysErr>
    ensures runs { RunsKeys command (V.now vault.old) result (V.now vault.new) }
    ensures stays { V.place vault.new ≡ V.place vault.old }
{
    let tables = vault.read_tables(alloc)?;
    obey_on(alloc, vault, &tables, &command)
}

/// The same on the tables as they were read.
fn obey_on<V: Vault>(
    alloc: Global,
    vault: &mut V,
    tables: &Tables,
    command: &KeyCommand,
) -> Result<Bytes, KeysErr>
    requires { IsSound tables.now }
    ensures runs { RunsKeysOn command.now tables.now (V.now vault.old) result (V.now vault.new) }
    ensures stays { V.place vault.new ≡ V.place vault.old }
{
    match command {
        KeyCommand::Blob { id, password } => show_blob(alloc, vault, tables, id, password),
        KeyCommand::List => Ok(list_keys(alloc, &tables.info)?),
        KeyCommand::New { password } => new_key(alloc, vault, &tables.info, password),
        KeyCommand::Use { id } => use_key(alloc, vault, &tables.info, id),
    }
}

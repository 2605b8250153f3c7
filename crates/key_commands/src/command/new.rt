ghost use Rattle.std.specs.Prelude.{◌≡◌, ◌≤◌, IfOk};
ghost use Rattle.jop_base.specs.Times.{last_time};
ghost use Rattle.key_commands.specs.Commands.New.{MakesNew};
ghost use Rattle.key_commands.specs.Stages.{MakesDated};
ghost use Rattle.sync_info.specs.Info.{IsInfo, IsKeyRecord};

use crate::keys_err::KeysErr;
use crate::vault::Vault;
use jop_base::{Bytes, Text};
use local_commands::id_line;
use local_store::Change;
use new_keys::with_new_key;
use std::alloc::Global;
use sync_info::{Info, KeyRecord};

/// A new key, and when it was made.
fn make_dated<V: Vault>(
    alloc: Global,
    vault: &mut V,
    password: &Text,
) -> Result<(KeyRecord, u64), KeysErr>
    ensures makes { MakesDated password.now (V.now vault.old) result (V.now vault.new) }
    ensures valid { IfOk result (λ dated. IsKeyRecord dated.0) }
    ensures time { IfOk result (λ dated. dated.1 ≤ last_time) }
    ensures stays { V.place vault.new ≡ V.place vault.old }
{
    let now = vault.time()?;
    let key = vault.make_key(alloc, password, now)?;
    Ok((key, now))
}

/// Makes a key, which is the active one then, and prints its id on a line of its own.
pub(crate) fn new_key<V: Vault>(
    alloc: Global,
    vault: &mut V,
    info: &Info,
    password: &Text,
) -> Result<Bytes, KeysErr>
    requires { IsInfo info.now }
    ensures makes { MakesNew password.now info.now (V.now vault.old) result (V.now vault.new) }
    ensures stays { V.place vault.new ≡ V.place vault.old }
{
    let (key, now) = make_dated(alloc, vault, password)?;
    let text = id_line(alloc, &key.id)?;
    let info = with_new_key(alloc, info, key, now)?;
    vault.commit(alloc, Change::InfoIs(info))?;
    Ok(text)
}

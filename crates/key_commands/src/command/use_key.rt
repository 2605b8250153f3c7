ghost use Rattle.std.specs.Prelude.{◌≡◌, true};
ghost use Rattle.key_commands.specs.Commands.Use.{UsesKey, UsesKeyIf};
ghost use Rattle.sync_info.specs.Info.{IsInfo};

use crate::keys_err::KeysErr;
use crate::vault::Vault;
use jop_base::{Bytes, Id};
use local_store::Change;
use new_keys::{has_key, with_active_key};
use std::alloc::Global;
use sync_info::Info;

/// Makes the key of an id active, and prints nothing. `NotFound` exactly if no key of the info has this id.
pub(crate) fn use_key<V: Vault>(
    alloc: Global,
    vault: &mut V,
    info: &Info,
    id: &Id,
) -> Result<Bytes, KeysErr>
    requires { IsInfo info.now }
    ensures uses { UsesKey id.now info.now (V.now vault.old) result (V.now vault.new) }
    ensures stays { V.place vault.new ≡ V.place vault.old }
{
    if !has_key(info, id) {
        return Err(KeysErr::NotFound(*id));
    }
    activate(alloc, vault, info, id)
}

/// The same of a key that is here.
fn activate<V: Vault>(alloc: Global, vault: &mut V, info: &Info, id: &Id) -> Result<Bytes, KeysErr>
    requires { IsInfo info.now }
    ensures uses { UsesKeyIf true id.now info.now (V.now vault.old) result (V.now vault.new) }
    ensures stays { V.place vault.new ≡ V.place vault.old }
{
    let now = vault.time()?;
    let info = with_active_key(alloc, info, id, now)?;
    vault.commit(alloc, Change::InfoIs(info))?;
    Ok(Bytes::new(alloc))
}

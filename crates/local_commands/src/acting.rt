ghost use Rattle.std.specs.Prelude.{◌≡◌, ◌∷◌, []};
ghost use Rattle.local_commands.specs.Keeping.{ActsAll, AreAllowed};

use crate::act::Act;
use client::Outside;
use jop_base::Seq;
use keeper::KeeperErr;
use std::alloc::Global;

/// Does acts in their order, up to the first that is refused.
pub(crate) fn do_all<O: Outside>(
    alloc: Global,
    outside: &mut O,
    acts: Seq<Act>,
) -> Result<(), KeeperErr>
    requires { AreAllowed acts }
    ensures acts { ActsAll acts (O.now outside.old) result (O.now outside.new) }
    ensures stays { O.place outside.new ≡ O.place outside.old }
{
    let mut left = acts;
    while !left.is_empty() {
        do_act(alloc, outside, left.remove(0))?;
    }
    Ok(())
}

fn do_act<O: Outside>(alloc: Global, outside: &mut O, act: Act) -> Result<(), KeeperErr>
    requires { AreAllowed (act ∷ []) }
    ensures acts { ActsAll (act ∷ []) (O.now outside.old) result (O.now outside.new) }
    ensures stays { O.place outside.new ≡ O.place outside.old }
{
    match act {
        Act::SaveBlob(blob) => outside.save_blob(alloc, &blob.id, &blob.bytes)?,
        Act::MakeChange(change) => outside.commit(alloc, change)?,
    }
    Ok(())
}

ghost use Rattle.std.specs.Prelude.{◌≡◌, Some};
ghost use Rattle.jop_cli.specs.Run.{Acts, IsFreshOutside};
ghost use Rattle.jop_words.specs.declared.verb.Verb.TheVariants as verbs;

use crate::world::World;
use jop_status::{Piece, Status};
use key_commands::KeyCommand;
use std::alloc::Global;

/// Does a command on master keys, and prints what it tells.
pub(crate) fn obey<W: World>(alloc: Global, world: &mut W, command: KeyCommand) -> Status
    requires { IsFreshOutside (W.now world.old) }
    ensures acts { Acts (Some (verbs.Keys command)) (W.now world.old) result (W.now world.new) }
    ensures stays { W.place world.new ≡ W.place world.old }
{
    match world.obey_keys(alloc, command) {
        Ok(text) => world.emit(&[Piece::Bytes(text.as_slice())]),
        Err(error) => Status::from(error),
    }
}

ghost use Rattle.std.specs.Prelude.{◌≡◌, Some};
ghost use Rattle.jop_cli.specs.Run.{Acts, IsFreshOutside};
ghost use Rattle.jop_words.specs.declared.verb.Verb.TheVariants as verbs;
ghost use Rattle.local_commands.specs.Commands.{IsWellFormed};

use crate::world::World;
use jop_status::{Piece, Status};
use local_commands::{LocalCommand, obey as obey_locally};
use std::alloc::Global;

/// Does a command on the tables, and prints what it tells.
pub(crate) fn obey<W: World>(alloc: Global, world: &mut W, command: LocalCommand) -> Status
    requires fit { IsWellFormed command }
    requires fresh { IsFreshOutside (W.now world.old) }
    ensures acts { Acts (Some (verbs.Local command)) (W.now world.old) result (W.now world.new) }
    ensures stays { W.place world.new ≡ W.place world.old }
{
    match obey_locally(alloc, world, command) {
        Ok(text) => world.emit(&[Piece::Bytes(text.as_slice())]),
        Err(error) => Status::from(error),
    }
}

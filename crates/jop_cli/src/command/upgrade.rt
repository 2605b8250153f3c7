ghost use Rattle.std.specs.Prelude.{◌≡◌, Some};
ghost use Rattle.jop_cli.specs.Run.{Acts, IsFreshOutside};
ghost use Rattle.jop_words.specs.declared.target_name.TargetName.{TargetName};
ghost use Rattle.jop_words.specs.declared.verb.Verb.TheVariants as verbs;

use crate::world::World;
use client::{Known, known_client};
use jop_base::let_go;
use jop_status::{Piece, Status};
use std::alloc::Global;

/// Brings the target to the supported version in a session of the client that the tables name, and prints that
/// version. Where they name none, it is named before anything else is changed or called.
pub(crate) fn obey<W: World>(alloc: Global, world: &mut W) -> Status
    requires { IsFreshOutside (W.now world.old) }
    ensures acts { (name : TargetName) → Acts (Some (verbs.Upgrade name)) (W.now world.old) result
        (W.now world.new) }
    ensures stays { W.place world.new ≡ W.place world.old }
{
    let Known { client, tables } = match known_client(alloc, world) {
        Ok(known) => known,
        Err(error) => return Status::from(error),
    };
    let_go(tables);
    match world.upgrade(alloc, &client) {
        Ok(version) => world.emit(&[
            Piece::Word("version "),
            Piece::Number(version),
            Piece::Word("\n"),
        ]),
        Err(error) => Status::from(error),
    }
}

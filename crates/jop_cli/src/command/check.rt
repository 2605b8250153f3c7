ghost use Rattle.std.specs.Prelude.{◌≡◌, Some};
ghost use Rattle.jop_cli.specs.Run.{Acts, IsFreshOutside};
ghost use Rattle.jop_words.specs.declared.target_name.TargetName.{TargetName};
ghost use Rattle.jop_words.specs.declared.verb.Verb.TheVariants.{Check};

use crate::world::World;
use jop_base::ClientId;
use jop_status::{Piece, Status};
use std::alloc::Global;

/// What is printed of a check that went well.
const FREE_LINE: &str = "free\n";

/// Takes a sync lock on the target for the client, releases it, and prints that it was free.
pub(crate) fn obey<W: World>(alloc: Global, world: &mut W, client: &ClientId) -> Status
    requires { IsFreshOutside (W.now world.old) }
    ensures acts { (name : TargetName) → Acts (Some (Check name client.now))
        (W.now world.old) result (W.now world.new) }
    ensures stays { W.place world.new ≡ W.place world.old }
{
    match world.check(alloc, client) {
        Ok(()) => world.emit(&[Piece::Word(FREE_LINE)]),
        Err(error) => Status::from(error),
    }
}

//! What each command does: a room and an arm for each.

mod check;
mod constant;
mod keys;
mod local;
mod sync;
mod tidy;
mod upgrade;

ghost use Rattle.std.specs.Prelude.{◌≡◌, Some};
ghost use Rattle.jop_cli.specs.Run.{Acts, IsFreshOutside};
ghost use Rattle.jop_words.specs.Verbs.{IsFit};

use crate::world::World;
use jop_status::{Status, USAGE_LINE};
use jop_words::Verb;
use std::alloc::Global;

/// The name of the program and its version, which is that of the file `VERSION`.
const VERSION_LINE: &str = "jop 0.2.0\n";

/// Does what a command says: an arm for each.
pub(crate) fn obey<W: World>(alloc: Global, world: &mut W, verb: Verb) -> Status
    requires fit { IsFit verb }
    requires fresh { IsFreshOutside (W.now world.old) }
    ensures acts { Acts (Some verb) (W.now world.old) result (W.now world.new) }
    ensures stays { W.place world.new ≡ W.place world.old }
{
    match verb {
        Verb::Check { target: _, client } => check::obey(alloc, world, &client),
        Verb::Help => constant::obey(world, USAGE_LINE),
        Verb::Keys(command) => keys::obey(alloc, world, command),
        Verb::Local(command) => local::obey(alloc, world, command),
        Verb::Sync { target: _ } => sync::obey(alloc, world),
        Verb::Tidy => tidy::obey(alloc, world),
        Verb::Upgrade { target: _ } => upgrade::obey(alloc, world),
        Verb::Version => constant::obey(world, VERSION_LINE),
    }
}

ghost use Rattle.std.specs.Prelude.{◌≡◌, Some};
ghost use Rattle.jop_cli.specs.Commands.{IsConstant};
ghost use Rattle.jop_cli.specs.Run.{Acts, IsFreshOutside};
ghost use Rattle.jop_words.specs.declared.verb.Verb.{Verb};

use crate::world::World;
use jop_status::{Piece, Status};

/// Prints a text, and does nothing else: what every command does that has this constant.
pub(crate) fn obey<W: World>(world: &mut W, text: &str) -> Status
    requires { IsFreshOutside (W.now world.old) }
    ensures acts { (verb : Verb) → IsConstant verb text.now → Acts (Some verb)
        (W.now world.old) result (W.now world.new) }
    ensures stays { W.place world.new ≡ W.place world.old }
{
    world.emit(&[Piece::Word(text)])
}

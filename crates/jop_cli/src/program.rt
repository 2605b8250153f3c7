ghost use Rattle.std.specs.Prelude.{◌≡◌, []};
ghost use Rattle.jop_cli.specs.Run.{Acts, RunsAsPromised, IsFreshOutside};
ghost use Rattle.jop_cli.specs.Worlds.{outside_of};
ghost use Rattle.jop_status.specs.Reports.{Reports};
ghost use Rattle.jop_words.specs.Commands.{meant};

use crate::command::obey;
use crate::world::World;
use client::Around;
use jop_outside::{Clock, Entropy, Sink, Source};
use jop_status::{Status, report};
use jop_target::{Diary, Target};
use jop_words::{Words, WordsErr, read_words};
use keeper::Keeper;
use law_kept::notes_are_kept_by_tables;
use local_store::Changes;
use std::alloc::Global;

/// Does what the words say, with these things of the outside, and writes the status's line on `err`.
pub fn run<K: Keeper, T: Target, I: Source, O: Sink, E: Sink, C: Clock, N: Entropy>(
    alloc: Global,
    words: &Words,
    keeper: &mut K,
    target: &mut T,
    input: &mut I,
    out: &mut O,
    err: &mut E,
    clock: &mut C,
    entropy: &mut N,
    diary: &mut Diary,
    made: &mut Changes,
) -> Status
    requires unwritten { diary.old.events ≡ [] }
    requires unchanged { made.old.changes ≡ [] }
    ensures does { RunsAsPromised (meant words.now.list)
        (outside_of diary.old.events (T.state target.old) (K.state keeper.old) made.old.changes
        (I.state input.old) (O.state out.old) (C.state clock.old) (N.state entropy.old))
        result
        (outside_of diary.new.events (T.state target.new) (K.state keeper.new) made.new.changes
        (I.state input.new) (O.state out.new) (C.state clock.new) (N.state entropy.new)) }
    ensures err { Reports (E.state err.old) result (E.state err.new) }
{
    notes_are_kept_by_tables();
    let mut world = Around {
        keeper: &mut *keeper,
        target: &mut *target,
        diary: &mut *diary,
        made: &mut *made,
        input: &mut *input,
        out: &mut *out,
        clock: &mut *clock,
        entropy: &mut *entropy,
    };
    let status = answer(alloc, words, &mut world);
    report(err, &status);
    status
}

/// Reads the words, and obeys them if they mean a command.
fn answer<W: World>(alloc: Global, words: &Words, world: &mut W) -> Status
    requires { IsFreshOutside (W.now world.old) }
    ensures acts { Acts (meant words.now.list) (W.now world.old) result (W.now world.new) }
    ensures stays { W.place world.new ≡ W.place world.old }
{
    match read_words(alloc, words) {
        Ok(command) => obey(alloc, world, command.verb),
        Err(WordsErr::Usage) => Status::Usage,
        Err(WordsErr::NoMemory) => Status::NoMemory,
    }
}

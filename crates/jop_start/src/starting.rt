ghost use Rattle.std.specs.Prelude.{◌≡◌, Err, IfOk, OnErr, true};
ghost use Rattle.jop_words.specs.Commands.{meant, profile_words};
ghost use Rattle.jop_start.specs.Opening.{WhileOpen, is_folder_kind};
ghost use Rattle.jop_start.specs.Starting.{IsRunOn, IsStartedRun, kind_named};

use crate::opener::Opener;
use crate::start_err::StartErr;
use crate::streams::Streams;
use crate::work::Work;
use jop_cli::run;
use jop_outside::{Clock, Entropy, Sink, Source};
use jop_target::{Diary, Target};
use jop_words::{TargetKind, TargetName, Words, profile_words, target_words};
use keeper::Keeper;
use local_store::Changes;
use std::alloc::{AllocError, Global};

/// Does what the words say, on the file of tables and the target that they name, which are opened for
/// this run alone, and gives the exit status of the program. Words that name no file have tables in
/// memory, and those that name no target one in memory.
///
/// The opener is asked once, and nothing but the run is done with what it opens. That holds of every
/// opener, and so of the system's too, since nothing here can know which one it is.
///
/// `EntropyFault` if no name could be drawn for the temporary files of a folder, `NoMemory` if the file
/// or the target couldn't be named. Then nothing is run, and nothing is opened.
pub fn run_named<'a, P: Opener, I: Source, O: Sink, E: Sink, C: Clock, N: Entropy>(
    alloc: Global,
    words: &'a Words,
    opener: &mut P,
    streams: &'a mut Streams<I, O, E, C, N>,
) -> Result<u8, StartErr>
    ensures runs { IfOk result (IsStartedRun (P.opens opener.old opener.new) words.now.list
        streams.old streams.new) }
    ensures drawn { result ≡ Err StartErr.EntropyFault →
        is_folder_kind (kind_named words.now.list) ≡ true }
    ensures idle { OnErr result (streams.new ≡ streams.old) }
    ensures unopened { OnErr result (opener.new ≡ opener.old) }
{
    let mut start = Start { words, streams };
    let exit = open_named(alloc, words, opener, &mut start)?;
    Ok(exit)
}

/// Has work done on the file of tables and the target that the words name.
fn open_named<P: Opener, W: Work>(
    alloc: Global,
    words: &Words,
    opener: &mut P,
    work: &mut W,
) -> Result<u8, StartErr>
    ensures works { IfOk result (λ exit. WhileOpen
        (P.opens opener.old opener.new (profile_words words.now.list) (kind_named words.now.list))
        (W.does work.old work.new exit)) }
    ensures drawn { result ≡ Err StartErr.EntropyFault →
        is_folder_kind (kind_named words.now.list) ≡ true }
    ensures idle { OnErr result (work.new ≡ work.old) }
    ensures unopened { OnErr result (opener.new ≡ opener.old) }
{
    let profile = profile_words(alloc, words)?;
    let kind = kind_of(alloc, words)?;
    let exit = opener.open(alloc, profile, kind, work)?;
    Ok(exit)
}

/// The kind of the target that the words name.
fn kind_of(alloc: Global, words: &Words) -> Result<TargetKind, AllocError>
    ensures { IfOk result (λ kind. kind ≡ kind_named words.now.list) }
{
    match target_words(alloc, words)? {
        Some(TargetName { text: _, kind }) => Ok(kind),
        None => Ok(TargetKind::Mem),
    }
}

/// A run of these words, with these streams.
#[derive(Drop)]
struct Start<'a, I: Source, O: Sink, E: Sink, C: Clock, N: Entropy> {
    words: &'a Words,
    streams: &'a mut Streams<I, O, E, C, N>,
}

impl<'a, I: Source, O: Sink, E: Sink, C: Clock, N: Entropy> Work for Start<'a, I, O, E, C, N> {
    ghost does = { λ old new exit first last.
        (new.streams.ghost_name ≡ old.streams.ghost_name)
        × IsRunOn (meant old.words.now.list) old.streams.now new.streams.now exit first last };

    fn done<K: Keeper, T: Target>(&mut self, alloc: Global, keeper: &mut K, target: &mut T) -> u8 {
        run_on(alloc, self.words, keeper, target, &mut *self.streams)
    }
}

/// Does what the words say, on this keeper and this target.
fn run_on<K: Keeper, T: Target, I: Source, O: Sink, E: Sink, C: Clock, N: Entropy>(
    alloc: Global,
    words: &Words,
    keeper: &mut K,
    target: &mut T,
    streams: &mut Streams<I, O, E, C, N>,
) -> u8
    ensures runs { IsRunOn (meant words.now.list) streams.old streams.new result
        (record { keeper = K.state keeper.old; target = T.state target.old })
        (record { keeper = K.state keeper.new; target = T.state target.new }) }
{
    let mut diary = Diary::new(alloc);
    let mut made = Changes::new(alloc);
    let status = run(
        alloc,
        words,
        keeper,
        target,
        &mut streams.input,
        &mut streams.out,
        &mut streams.err,
        &mut streams.clock,
        &mut streams.entropy,
        &mut diary,
        &mut made,
    );
    status.exit()
}

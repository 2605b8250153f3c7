use jop_base::{Bytes, Seq, Text};
use jop_cli::run;
use jop_outside::{MemClock, MemEntropy, MemSink, MemSource};
use jop_status::Status;
use jop_target::{Diary, Event, Target};
use jop_words::Words;
use keeper_records::MemKeeper;
use local_store::Changes;
use std::alloc::{AllocError, Global};

/// A client that keeps its tables in memory, with the diary of its last run.
pub(crate) struct Client {
    pub keeper: MemKeeper,
    clock: MemClock,
    entropy: MemEntropy,
    diary: Diary,
    /// How many calls its runs have made.
    pub calls: u64,
}

// Written out, so that what lets go of a client calls this. A derived one is written out at each
// end.
impl Drop for Client {
    fn drop(self) {
        let Client {
            keeper: _,
            clock: _,
            entropy: _,
            diary: _,
            calls: _,
        } = self;
    }
}

/// A random source of the bytes 0 to 255, so that the first id is 000102030405060708090a0b0c0d0e0f.
fn new_entropy(alloc: Global) -> Result<MemEntropy, AllocError> {
    let mut bytes = Bytes::new(alloc);
    for byte in 0u8..=255 {
        bytes.push(byte)?;
    }
    Ok(MemEntropy::new(alloc, bytes))
}

/// Words that are given as one line, with a space between each two.
fn words_of(alloc: Global, line: &str) -> Result<Words, AllocError> {
    let mut list = Seq::new(alloc);
    for word in line.split(' ') {
        list.push(Text::of(alloc, word)?)?;
    }
    Ok(Words { list })
}

/// An input of these bytes.
fn source_of(alloc: Global, input: &[u8]) -> Result<MemSource, AllocError> {
    let mut bytes = Bytes::new(alloc);
    bytes.append(input)?;
    Ok(MemSource::new(alloc, bytes))
}

/// What stands before the first `|`, and what stands behind it.
fn cut(line: &str) -> (&str, &str) {
    line.split_once('|').unwrap_or((line, ""))
}

/// How many calls were answered.
fn calls_in(events: &[Event]) -> u64 {
    let mut count = 0u64;
    for event in events {
        if let Event::Called(_, _) = event {
            count = count.saturating_add(1);
        }
    }
    count
}

impl Client {
    /// One with new tables.
    pub(crate) fn new(alloc: Global) -> Result<Client, AllocError> {
        let entropy = new_entropy(alloc)?;
        Ok(Client {
            keeper: MemKeeper::new(alloc),
            clock: MemClock::new(alloc, 5, 1),
            entropy,
            diary: Diary::new(alloc),
            calls: 0,
        })
    }

    /// Runs the program once on this target, with the words that stand before the first `|` of a
    /// line and what stands behind it as input: its exit status.
    pub(crate) fn play<T: Target>(
        &mut self,
        alloc: Global,
        target: &mut T,
        line: &str,
    ) -> Result<u8, AllocError> {
        let (words, input) = cut(line);
        let words = words_of(alloc, words)?;
        let mut input = source_of(alloc, input.as_bytes())?;
        let status = self.obey(alloc, target, &words, &mut input);
        self.calls = self.calls.saturating_add(calls_in(self.diary.events()));
        Ok(status.exit())
    }

    fn obey<T: Target>(
        &mut self,
        alloc: Global,
        target: &mut T,
        words: &Words,
        input: &mut MemSource,
    ) -> Status {
        self.diary = Diary::new(alloc);
        run(
            alloc,
            words,
            &mut self.keeper,
            target,
            input,
            &mut MemSink::new(alloc),
            &mut MemSink::new(alloc),
            &mut self.clock,
            &mut self.entropy,
            &mut self.diary,
            &mut Changes::new(alloc),
        )
    }
}

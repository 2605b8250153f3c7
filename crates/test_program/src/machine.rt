use jop_base::{Bytes, Seq, Text};
use jop_cli::run;
use jop_outside::{MemClock, MemEntropy, MemSink, MemSource};
use jop_status::Status;
use jop_target::{Diary, MemTarget};
use jop_words::Words;
use keeper::Keeper;
use keeper_records::MemKeeper;
use local_store::Changes;
use std::alloc::{AllocError, Global};

/// A client with all that is outside it. The sinks, the diary and the status are those of the last command.
pub(crate) struct Client<K: Keeper> {
    pub keeper: K,
    pub clock: MemClock,
    pub entropy: MemEntropy,
    pub out: MemSink,
    pub err: MemSink,
    pub diary: Diary,
    pub status: Status,
}

// Written out, so that what lets go of a client calls this. A derived one is written out at each end.
impl<K: Keeper> Drop for Client<K> {
    fn drop(self) {
        let Client {
            keeper: _,
            clock: _,
            entropy: _,
            out: _,
            err: _,
            diary: _,
            status: _,
        } = self;
    }
}

/// A random source of the bytes from this one to 255.
pub(crate) fn entropy_from(alloc: Global, first: u8) -> Result<MemEntropy, AllocError> {
    let mut bytes = Bytes::new(alloc);
    for byte in first..=255 {
        bytes.push(byte)?;
    }
    Ok(MemEntropy::new(alloc, bytes))
}

/// A random source of the bytes 0 to 255, so that the first id is 000102030405060708090a0b0c0d0e0f.
pub(crate) fn new_entropy(alloc: Global) -> Result<MemEntropy, AllocError> {
    entropy_from(alloc, 0)
}

/// Words that are given as one line, with a space between each two.
pub(crate) fn words_of(alloc: Global, line: &str) -> Result<Words, AllocError> {
    let mut list = Seq::new(alloc);
    for word in line.split(' ') {
        if !word.is_empty() {
            list.push(Text::of(alloc, word)?)?;
        }
    }
    Ok(Words { list })
}

/// An input of these bytes.
pub(crate) fn source_of(alloc: Global, input: &[u8]) -> Result<MemSource, AllocError> {
    let mut bytes = Bytes::new(alloc);
    bytes.append(input)?;
    Ok(MemSource::new(alloc, bytes))
}

/// A client that keeps its tables in memory.
pub(crate) fn client_at(alloc: Global, now: u64) -> Result<Client<MemKeeper>, AllocError> {
    let entropy = new_entropy(alloc)?;
    Ok(Client::new(alloc, MemKeeper::new(alloc), now, entropy))
}

impl<K: Keeper> Client<K> {
    /// Its clock shows this time, in milliseconds since 1970, and goes on by one each time.
    pub(crate) fn new(alloc: Global, keeper: K, now: u64, entropy: MemEntropy) -> Client<K> {
        Client {
            keeper,
            clock: MemClock::new(alloc, now, 1),
            entropy,
            out: MemSink::new(alloc),
            err: MemSink::new(alloc),
            diary: Diary::new(alloc),
            status: Status::Ok,
        }
    }

    /// Runs the program once, on a new target in memory. The words stand on one line.
    pub(crate) fn play(
        &mut self,
        alloc: Global,
        line: &str,
        input: &[u8],
    ) -> Result<u8, AllocError> {
        self.play_on(alloc, &mut MemTarget::new(alloc, 0, 1), line, input)
    }

    /// Runs the program once, on this target.
    pub(crate) fn play_on(
        &mut self,
        alloc: Global,
        target: &mut MemTarget,
        line: &str,
        input: &[u8],
    ) -> Result<u8, AllocError> {
        let mut input = source_of(alloc, input)?;
        self.out = MemSink::new(alloc);
        self.err = MemSink::new(alloc);
        self.read(alloc, target, line, &mut input)?;
        Ok(self.status.exit())
    }

    /// Runs the program once, on this target and this input. What it writes comes behind what the sinks
    /// have.
    pub(crate) fn read(
        &mut self,
        alloc: Global,
        target: &mut MemTarget,
        line: &str,
        input: &mut MemSource,
    ) -> Result<(), AllocError> {
        let words = words_of(alloc, line)?;
        self.obey(alloc, target, &words, input);
        Ok(())
    }

    fn obey(
        &mut self,
        alloc: Global,
        target: &mut MemTarget,
        words: &Words,
        input: &mut MemSource,
    ) {
        self.diary = Diary::new(alloc);
        self.status = run(
            alloc,
            words,
            &mut self.keeper,
            target,
            input,
            &mut self.out,
            &mut self.err,
            &mut self.clock,
            &mut self.entropy,
            &mut self.diary,
            &mut Changes::new(alloc),
        );
    }
}

use crate::due::{Due, cut, read_due};
use crate::machine::{entropy_from, source_of};
use jop_base::{Seq, Text};
use jop_outside::{MemClock, MemEntropy, MemSink, MemSource};
use jop_start::{Opener, Streams, SystemOpener, run_named};
use jop_watch::Nobody;
use jop_words::Words;
use std::alloc::{AllocError, Global};
use std::path::PathBuf;
use std::test::Fail;
use std::{env, fs, process};

/// What is outside a command, but for its files.
pub(crate) type Around = Streams<MemSource, MemSink, MemSink, MemClock, MemEntropy>;

/// A folder of this process, in which a target and the tables of its clients stand.
#[derive(Drop)]
pub(crate) struct Place {
    rt: HostRuntime,
    folder: PathBuf,
}

impl Place {
    /// Makes it, with a target that is empty.
    pub(crate) fn new(rt: &HostRuntime, name: &str) -> Result<Place, Fail> {
        let mut folder = env::temp_dir(rt)?;
        let number = process::id(rt.process());
        folder.push(format!(in rt.alloc(); "jop_{name}_{number}")?.as_str())?;
        let place = Place { rt: *rt, folder };
        place.make()?;
        Ok(place)
    }

    fn make(&self) -> Result<(), Fail> {
        let _ = fs::remove_dir_all(&self.rt, &self.folder);
        fs::create_dir(&self.rt, &self.folder)?;
        fs::create_dir(&self.rt, &self.path("target")?)?;
        Ok(())
    }

    /// Takes it away.
    pub(crate) fn remove(self) -> Result<(), Fail> {
        Ok(fs::remove_dir_all(&self.rt, &self.folder)?)
    }

    fn path(&self, name: &str) -> Result<PathBuf, AllocError> {
        self.folder.join(self.rt.alloc(), name)
    }

    /// Writes a file, as another program might.
    pub(crate) fn write(&self, name: &str, text: &str) -> Result<(), Fail> {
        Ok(fs::write(&self.rt, &self.path(name)?, text)?)
    }

    /// The file with a client's tables.
    fn profile(&self, client: &str) -> Result<Text, AllocError> {
        let path = self.path(client)?;
        Text::of(self.rt.alloc(), path.as_str())
    }

    fn target(&self) -> Result<Text, AllocError> {
        let path = self.path("target")?;
        let mut word = Text::of(self.rt.alloc(), "dir:")?;
        word.append(path.as_str())?;
        Ok(word)
    }

    /// A word of a command. `dir:` alone is the target.
    fn word(&self, word: &str) -> Result<Text, AllocError> {
        if word == "dir:" {
            self.target()
        } else {
            Text::of(self.rt.alloc(), word)
        }
    }

    /// Adds the words of a command, which stand on one line.
    fn add_words(&self, list: &mut Seq<Text>, line: &str) -> Result<(), AllocError> {
        for word in line.split(' ') {
            list.push(self.word(word)?)?;
        }
        Ok(())
    }

    /// The words of a command, on a client's own file of tables.
    fn words(&self, client: &str, line: &str) -> Result<Words, AllocError> {
        let mut list = Seq::new(self.rt.alloc());
        list.push(self.word("--profile")?)?;
        list.push(self.profile(client)?)?;
        self.add_words(&mut list, line)?;
        Ok(Words { list })
    }

    fn meets(&self, words: &Words, around: &mut Around, due: &Due) -> bool {
        let mut opener = SystemOpener::new(self.rt, Nobody, Text::new(self.rt.alloc()));
        is_met(self.rt.alloc(), words, &mut opener, around, due)
    }

    /// Whether a command comes out as it is to. Its first random byte is this one.
    fn comes_out(&self, line: &str, first: u8) -> Result<bool, AllocError> {
        let (client, rest) = cut(line);
        let due = read_due(rest);
        let words = self.words(client, due.words)?;
        let mut around = around(self.rt.alloc(), due.input, first)?;
        Ok(self.meets(&words, &mut around, &due))
    }

    /// The first of these commands that comes out otherwise, counted from 0. The random bytes of each
    /// begin where 16 of the last one end.
    pub(crate) fn first_surprise(&self, lines: &str) -> Result<Option<usize>, AllocError> {
        let mut first: u8 = 0;
        for (number, line) in lines.lines().enumerate() {
            if !self.comes_out(line, first)? {
                return Ok(Some(number));
            }
            first = first.saturating_add(16);
        }
        Ok(None)
    }
}

/// Whether a command comes out as it is to, on what is opened so.
pub(crate) fn is_met<P: Opener>(
    alloc: Global,
    words: &Words,
    opener: &mut P,
    around: &mut Around,
    due: &Due,
) -> bool {
    match run_named(alloc, words, opener, around) {
        Ok(exit) => due.is_met(exit, around.out.written(), around.err.written()),
        Err(_) => false,
    }
}

/// An input of these bytes, a clock, and random bytes from this one on.
pub(crate) fn around(alloc: Global, input: &str, first: u8) -> Result<Around, AllocError> {
    let input = source_of(alloc, input.as_bytes())?;
    let entropy = entropy_from(alloc, first)?;
    Ok(Streams {
        input,
        out: MemSink::new(alloc),
        err: MemSink::new(alloc),
        clock: MemClock::new(alloc, 5, 1),
        entropy,
    })
}

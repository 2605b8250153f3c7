use crate::alone::Alone;
use crate::machine::source_of;
use jop_base::{Bytes, Path};
use jop_outside::MemSource;
use std::alloc::{AllocError, Global};
use std::test::Fail;

const NOTE: &str =
    "T\n\nid: aaaaaaaaaaaaaaaaaaaaaaaaaaaaaaaa\nlatitude: 0.00000000\nx_new: a:b\ntype_: 1";

const NOTE_WITH_A_BAD_LINE: &[u8] =
    b"T\n\nid: aaaaaaaaaaaaaaaaaaaaaaaaaaaaaaaa\nlatitude: 0.00000000\nx_new: a:b\nbad line\ntype_: 1";

/// A note with a body of a million bytes, which takes several reads.
fn long_note(alloc: Global) -> Result<MemSource, AllocError> {
    let mut text = Bytes::new(alloc);
    text.append(b"T\n\n")?;
    text.append(vec![in alloc; b'x'; 1_000_000]?.as_slice())?;
    text.append(b"\n\ntype_: 1")?;
    Ok(MemSource::new(alloc, text))
}

impl Alone {
    /// The exit status of tidying an input.
    fn tidy(&mut self, alloc: Global, input: &mut MemSource) -> Result<u8, AllocError> {
        self.client.read(alloc, &mut self.target, "tidy", input)?;
        Ok(self.client.status.exit())
    }
}

/// Whether tidying this input prints that.
fn prints(alloc: Global, input: &mut MemSource, text: &[u8]) -> Result<bool, AllocError> {
    let mut alone = Alone::new(alloc, 0, 1)?;
    Ok(alone.tidy(alloc, input)? == 0 && alone.has_printed(text))
}

/// Whether tidying this input ends with this exit status, and tells that.
fn tells(alloc: Global, input: &mut MemSource, exit: u8, text: &[u8]) -> Result<bool, AllocError> {
    let mut alone = Alone::new(alloc, 0, 1)?;
    Ok(alone.tidy(alloc, input)? == exit && alone.has_told(text))
}

/// Whether tidying this text prints that, and leaves nothing of the input.
fn prints_all(alloc: Global, text: &str, out: &str) -> Result<bool, AllocError> {
    let mut input = source_of(alloc, text.as_bytes())?;
    let printed = prints(alloc, &mut input, out.as_bytes())?;
    Ok(printed && input.left().is_empty())
}

const CANONICAL: [(&str, &str); 3] = [
    (NOTE, NOTE),
    ("type_: 1", "type_: 1"),
    (" type_ :1", "type_: 1"),
];

#[test]
fn prints_the_canonical_text_and_nothing_more(rt: HostRuntime) -> Result<(), Fail> {
    for (text, out) in CANONICAL {
        assert!(rt; prints_all(rt.alloc(), text, out)?);
    }
    Ok(())
}

const FIRST_FAULTS: [(&[u8], &[u8]); 4] = [
    (NOTE_WITH_A_BAD_LINE, b"bad item line 6 no colon\n"),
    (b"type_: 1\n", b"bad item line 0 no type\n"),
    (b"type_: 1000\nid:", b"bad item line 1 type value\n"),
    (b"\xff", b"bad item line 0 not text\n"),
];

/// Whether this is told of a text, of which nothing is left.
fn tells_of(alloc: Global, text: &[u8], fault: &[u8]) -> Result<bool, AllocError> {
    let mut input = source_of(alloc, text)?;
    let told = tells(alloc, &mut input, 21, fault)?;
    Ok(told && input.left().is_empty())
}

#[test]
fn names_the_first_fault_of_a_text(rt: HostRuntime) -> Result<(), Fail> {
    for (text, fault) in FIRST_FAULTS {
        assert!(rt; tells_of(rt.alloc(), text, fault)?);
    }
    Ok(())
}

fn prints_a_long_note(alloc: Global) -> Result<bool, AllocError> {
    let same = long_note(alloc)?;
    let mut input = long_note(alloc)?;
    prints(alloc, &mut input, same.left())
}

#[test]
fn reads_a_long_note_to_its_end(rt: HostRuntime) -> Result<(), Fail> {
    assert!(rt; prints_a_long_note(rt.alloc())?);
    Ok(())
}

fn tells_a_failed_read(alloc: Global, nth: u64) -> Result<bool, AllocError> {
    let mut input = long_note(alloc)?;
    input.fail(nth)?;
    tells(alloc, &mut input, 11, b"input fault\n")
}

#[test]
fn prints_nothing_where_a_read_fails(rt: HostRuntime) -> Result<(), Fail> {
    for nth in [1, 2, 17] {
        assert!(rt; tells_a_failed_read(rt.alloc(), nth)?);
    }
    Ok(())
}

/// Whether an input that is too long is read to a byte past its limit.
fn stops_past_the_limit(alloc: Global) -> Result<bool, AllocError> {
    let long = Bytes::from_vec(vec![in alloc; b'x'; 16_777_219]?);
    let mut input = MemSource::new(alloc, long);
    let told = tells(alloc, &mut input, 18, b"too large 16777217\n")?;
    Ok(told && input.left().len() == 2)
}

#[test]
fn refuses_an_input_past_its_limit(rt: HostRuntime) -> Result<(), Fail> {
    assert!(rt; stops_past_the_limit(rt.alloc())?);
    Ok(())
}

impl Alone {
    /// Whether tidying a note tells that the first write to standard output failed.
    fn tells_a_failed_write(&mut self, alloc: Global) -> Result<bool, AllocError> {
        let mut input = source_of(alloc, NOTE.as_bytes())?;
        self.client.out.fail(1)?;
        Ok(self.tidy(alloc, &mut input)? == 12 && self.has_told(b"output fault\n"))
    }
}

fn tells_its_output_failed(alloc: Global) -> Result<bool, AllocError> {
    let mut alone = Alone::new(alloc, 0, 1)?;
    alone.tells_a_failed_write(alloc)
}

#[test]
fn tells_a_sink_that_takes_no_tidy_text(rt: HostRuntime) -> Result<(), Fail> {
    assert!(rt; tells_its_output_failed(rt.alloc())?);
    Ok(())
}

/// A line a command: its words, its input, its exit status, and what it writes, in which `~` stands for
/// a line feed. None calls its target.
const UNCALLED: &str = "\
help||0|usage: jop [--profile PATH] COMMAND~
help|type_: 1|0|usage: jop [--profile PATH] COMMAND~
tidy|type_: 1|0|type_: 1
||2|usage: jop [--profile PATH] COMMAND~
check mem:||2|usage: jop [--profile PATH] COMMAND~
--help||2|usage: jop [--profile PATH] COMMAND~
help tidy||2|usage: jop [--profile PATH] COMMAND~
tidy tidy||2|usage: jop [--profile PATH] COMMAND~
";

impl Alone {
    /// The target has one file, and no folder.
    fn place_a_file(&mut self, alloc: Global) -> Result<(), AllocError> {
        self.target.place(Path::Info, Bytes::new(alloc), 7)
    }

    /// Whether the target is so, and the last command called nothing.
    fn is_uncalled(&self) -> bool {
        let tree = self.target.tree();
        tree.files.len() == 1 && tree.folders.is_empty() && self.client.diary.events().is_empty()
    }

    /// The first of the lines that comes out otherwise, or calls the target, counted from 0.
    fn first_surprise(&mut self, alloc: Global) -> Result<Option<usize>, AllocError> {
        self.place_a_file(alloc)?;
        for (number, line) in UNCALLED.lines().enumerate() {
            if !self.comes_out(alloc, line)? || !self.is_uncalled() {
                return Ok(Some(number));
            }
        }
        Ok(None)
    }
}

fn first_surprise(alloc: Global) -> Result<Option<usize>, AllocError> {
    let mut alone = Alone::new(alloc, 0, 1)?;
    alone.first_surprise(alloc)
}

#[test]
fn calls_a_target_for_no_other_words(rt: HostRuntime) -> Result<(), Fail> {
    assert_eq!(rt; first_surprise(rt.alloc())?, None);
    Ok(())
}

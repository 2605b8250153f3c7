use crate::texts::bytes_of;
use jop_outside::{
    Failed, MemSink, MemSource, Plan, ReadErr, Sink, Source, read_to_end, write_parts,
};
use std::alloc::{AllocError, Global};
use std::test::Fail;

fn writes(sink: &mut MemSink, table: &[(&[u8], Result<usize, Failed>)]) -> bool {
    for (bytes, answer) in table {
        if sink.write(bytes) != *answer {
            return false;
        }
    }
    true
}

/// Whether a sink fails at its second call alone, and keeps what the others wrote.
fn fails_once(sink: &mut MemSink) -> Result<bool, AllocError> {
    sink.fail(2)?;
    let table = [
        (b"ab".as_slice(), Ok(2)),
        (b"cd".as_slice(), Err(Failed)),
        (b"ef".as_slice(), Ok(2)),
    ];
    Ok(writes(sink, &table) && sink.written() == b"abef".as_slice())
}

#[test]
fn a_sink_fails_when_it_is_planned(rt: HostRuntime) -> Result<(), Fail> {
    let mut sink = MemSink::new(rt.alloc());
    assert!(rt; fails_once(&mut sink)?);
    assert!(rt; sink.faults() == 1 && sink.starved() == 0);
    Ok(())
}

/// A call for at most so many bytes, what it is answered, and what is left.
#[derive(Clone, Copy)]
struct Reading {
    room: usize,
    answer: Result<usize, Failed>,
    left: &'static [u8],
}

const READINGS: [Reading; 6] = [
    Reading {
        room: 0,
        answer: Ok(0),
        left: b"abcdef",
    },
    Reading {
        room: 1,
        answer: Ok(1),
        left: b"bcdef",
    },
    Reading {
        room: 4,
        answer: Err(Failed),
        left: b"bcdef",
    },
    Reading {
        room: 4,
        answer: Ok(4),
        left: b"f",
    },
    Reading {
        room: 4,
        answer: Ok(1),
        left: b"",
    },
    Reading {
        room: 4,
        answer: Ok(0),
        left: b"",
    },
];

fn leaves(source: &MemSource, left: &[u8]) -> bool {
    source.left() == left
}

fn reads(source: &mut MemSource, piece: &mut [u8; 4], reading: &Reading) -> bool {
    let room = reading.room.min(4);
    let answer = source.read(&mut piece[..room]);
    room == reading.room && answer == reading.answer && leaves(source, reading.left)
}

/// The piece after these calls, if they are answered so.
fn piece_of(source: &mut MemSource, readings: &[Reading]) -> Option<[u8; 4]> {
    let mut piece = [b'-'; 4];
    for reading in readings {
        if !reads(source, &mut piece, reading) {
            return None;
        }
    }
    Some(piece)
}

fn gives_all(source: &mut MemSource) -> Result<bool, AllocError> {
    source.fail(3)?;
    Ok(piece_of(source, &READINGS) == Some(*b"fcde") && source.faults() == 1)
}

#[test]
fn a_source_gives_what_it_was_made_with(rt: HostRuntime) -> Result<(), Fail> {
    let mut source = MemSource::new(rt.alloc(), bytes_of(rt.alloc(), b"abcdef")?);
    assert!(rt; gives_all(&mut source)?);
    Ok(())
}

#[test]
fn a_plan_tells_the_next_call(rt: HostRuntime) -> Result<(), Fail> {
    let mut plan = Plan::new(rt.alloc());
    plan.fail(1, true)?;
    assert_eq!(rt; plan.fate(), Some(true));
    plan.count_call();
    assert_eq!(rt; plan.fate(), None);
    Ok(())
}

/// Whether these bytes are all that a source gives.
fn is_read(
    alloc: Global,
    source: &mut MemSource,
    limit: usize,
    text: &[u8],
) -> Result<bool, ReadErr> {
    Ok(read_to_end(alloc, source, limit)?.as_slice() == text)
}

/// The same of a source of three bytes, one call of which is to fail.
fn is_read_whole(alloc: Global, limit: usize, failing: u64) -> Result<bool, ReadErr> {
    let text = b"abc";
    let mut source = MemSource::new(alloc, bytes_of(alloc, text)?);
    source.fail(failing)?;
    is_read(alloc, &mut source, limit, text)
}

#[test]
fn a_source_is_read_to_its_end(rt: HostRuntime) {
    for (limit, failing, wanted) in [
        (3, 9, Ok(true)),
        (2, 9, Err(ReadErr::TooLarge)),
        (3, 2, Err(ReadErr::Fault)),
    ] {
        assert!(rt; is_read_whole(rt.alloc(), limit, failing) == wanted);
    }
}

/// Whether the same three parts are written once, and then up to a call that fails.
fn are_written(sink: &mut MemSink) -> Result<bool, AllocError> {
    sink.fail(4)?;
    let parts = [b"ab".as_slice(), b"", b"c"];
    let first = write_parts(sink, &parts);
    let second = write_parts(sink, &parts);
    Ok(first == Ok(()) && second == Err(Failed))
}

#[test]
fn parts_are_written_in_a_row(rt: HostRuntime) -> Result<(), Fail> {
    let mut sink = MemSink::new(rt.alloc());
    assert!(rt; are_written(&mut sink)?);
    assert!(rt; sink.written() == b"abcab".as_slice());
    Ok(())
}

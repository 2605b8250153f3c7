ghost use Rattle.reply_reader.specs.Pieces.{Stands};
ghost use Rattle.std.specs.Prelude.{◌≤◌, length};

use crate::client::LOCKS;
use dav_parts::write_multistatus;
use jop_base::{Bytes, Dir, LockName, Path};
use jop_target::{Call, Entry};
use reply_reader::{Fed, ReplyReader};
use std::alloc::{AllocError, Global};
use std::test::Fail;

const INFO: &[u8] =
    b"HTTP/1.1 200 OK\r\nDate: Thu, 01 Jan 1970 00:00:01 GMT\r\nContent-Length: 2\r\n\r\nab";

/// Responses to a get, with bytes behind them, and what is told of each.
const FOLLOWED: [(&[u8], &str); 4] = [
    (
        b"HTTP/1.1 200 OK\r\nDate: Thu, 01 Jan 1970 00:00:01 GMT\r\nContent-Length: 2\r\n\r\nabHTTP",
        "got 2 bytes at 1000, 4 behind",
    ),
    (
        b"HTTP/1.1 200 OK\r\nDate: Thu, 01 Jan 1970 00:00:01 GMT\r\nContent-Length: 0\r\n\r\nabc",
        "got 0 bytes at 1000, 3 behind",
    ),
    (
        b"HTTP/1.1 404 Not Found\r\nDate: Thu, 01 Jan 1970 00:00:01 GMT\r\nContent-Length: 2\r\n\r\nabc",
        "absent at 1000, 1 behind",
    ),
    // It is told by the head alone.
    (
        b"HTTP/1.1 200 OK\r\nDate: Thu, 01 Jan 1970 00:00:01 GMT\r\nContent-Length: 16777217\r\n\r\nabc",
        "too large, 16777217 bytes, 3 behind",
    ),
];

/// The head of a listing whose body has 600 bytes.
const HEAD: &[u8] =
    b"HTTP/1.1 207 Multi-Status\r\nDate: Thu, 01 Jan 1970 00:00:01 GMT\r\nContent-Length: 600\r\n\r\n";

/// What is told by an answer, and how many bytes are behind it.
fn told_by(alloc: Global, reader: ReplyReader, fed: Fed) -> Result<String, Fail>
    requires { Stands fed reader.state }
{
    match fed {
        Fed::More => Ok(format!(in alloc; "more")?),
        Fed::Bad => Ok(format!(in alloc; "bad")?),
        Fed::Whole { rest } => {
            let (reply, _) = reader.take();
            Ok(format!(in alloc; "{reply}, {rest} behind")?)
        }
    }
}

/// What is told of a response in two pieces, of which the first has so many bytes.
fn told_in_two(alloc: Global, call: &Call, text: &[u8], cut: usize) -> Result<String, Fail>
    requires { cut ≤ length text.now }
{
    let (first, second) = text.split_at(cut);
    let mut reader = ReplyReader::new(alloc, call);
    match reader.feed(alloc, first)? {
        Fed::More => {}
        early => return told_by(alloc, reader, early),
    }
    let fed = reader.feed(alloc, second)?;
    told_by(alloc, reader, fed)
}

/// Whether this is told wherever a response is cut in two, the empty pieces at its ends among them.
fn is_told_in_any_cut(alloc: Global, call: &Call, text: &[u8], wanted: &str) -> Result<bool, Fail> {
    for cut in 0..text.len() {
        let said = told_in_two(alloc, call, text, cut)?;
        if said.as_str() != wanted {
            return Ok(false);
        }
    }
    let whole = told_in_two(alloc, call, text, text.len())?;
    Ok(whole.as_str() == wanted)
}

#[test]
fn a_listing_is_told_in_any_cut(rt: HostRuntime) -> Result<(), Fail> {
    let call = Call::List(Dir::Locks);
    assert!(rt; is_told_in_any_cut(rt.alloc(), &call, LOCKS, "listed at 1000, 0 behind")?);
    Ok(())
}

#[test]
fn a_file_is_told_in_any_cut(rt: HostRuntime) -> Result<(), Fail> {
    let call = Call::Get(Path::Info);
    assert!(rt; is_told_in_any_cut(rt.alloc(), &call, INFO, "got 2 bytes at 1000, 0 behind")?);
    Ok(())
}

#[test]
fn bytes_behind_a_response_are_counted(rt: HostRuntime) -> Result<(), Fail> {
    for (text, wanted) in FOLLOWED {
        let said = told_in_two(rt.alloc(), &Call::Get(Path::Info), text, 0)?;
        assert_eq!(rt; said.as_str(), wanted);
    }
    Ok(())
}

/// A listing whose body is one byte again and again.
fn filled(alloc: Global, byte: u8) -> Result<Bytes, AllocError> {
    let mut text = Bytes::new(alloc);
    text.append(HEAD)?;
    for _ in 0..600 {
        text.push(byte)?;
    }
    Ok(text)
}

/// Whether a body of this byte is bad at its end and no sooner.
fn is_bad_at_its_end(alloc: Global, byte: u8) -> Result<bool, Fail> {
    let call = Call::List(Dir::Locks);
    let text = filled(alloc, byte)?;
    Ok(is_told_in_any_cut(alloc, &call, text.as_slice(), "bad")?)
}

#[test]
fn a_body_out_of_its_layout_is_bad_at_its_end(rt: HostRuntime) -> Result<(), Fail> {
    for byte in [b'x', b'\n', b'<'] {
        assert!(rt; is_bad_at_its_end(rt.alloc(), byte)?);
    }
    Ok(())
}

/// Feeds a response byte by byte. The most bytes that are held in its head, and in its body.
fn most_held(alloc: Global, call: &Call, text: &[u8]) -> Result<(u64, u64), Fail> {
    let mut reader = ReplyReader::new(alloc, call);
    let mut head = 0;
    let mut body = 0;
    for byte in text {
        let Fed::More = reader.feed(alloc, &[*byte])? else {
            return Ok((head, body));
        };
        if reader.missing() == 0 {
            head = reader.held();
        } else {
            body = reader.held().max(body);
        }
    }
    Ok((head, body))
}

#[test]
fn little_is_held_of_a_listing(rt: HostRuntime) -> Result<(), Fail> {
    let (head, body) = most_held(rt.alloc(), &Call::List(Dir::Locks), LOCKS)?;
    assert_eq!(rt; head, 134);
    assert!(rt; body > 100 && body < 512);
    Ok(())
}

/// How many bytes are held behind a first piece, and how many are missing of the body then. None if more doesn't come.
fn held_behind(alloc: Global, call: &Call, piece: &[u8]) -> Result<Option<(u64, u64)>, Fail> {
    let mut reader = ReplyReader::new(alloc, call);
    match reader.feed(alloc, piece)? {
        Fed::More => Ok(Some((reader.held(), reader.missing()))),
        _ => Ok(None),
    }
}

/// Whether that is so little as it may be: all of a head, and less than 512 bytes of a body.
fn is_little(cut: usize, head: usize, held: u64, missing: u64) -> bool {
    if cut < head {
        held == cut as u64 && held < 16_384 && missing == 0
    } else {
        held < 512 && missing > 0
    }
}

#[test]
fn little_is_held_wherever_a_listing_is_cut(rt: HostRuntime) -> Result<(), Fail> {
    let call = Call::List(Dir::Locks);
    let head = LOCKS.len().saturating_sub(263);
    for cut in 0..LOCKS.len() {
        let (held, missing) = held_behind(rt.alloc(), &call, &LOCKS[..cut])?.ok_or("more")?;
        assert!(rt; is_little(cut, head, held, missing), "{cut}");
    }
    Ok(())
}

/// The response to a listing that announces so many bytes, and then this body.
fn listing(alloc: Global, announced: usize, body: &[u8]) -> Result<Bytes, AllocError> {
    let line = format!(in alloc; "Content-Length: {announced}\r\n\r\n")?;
    let mut text = Bytes::new(alloc);
    text.append(b"HTTP/1.1 207 Multi-Status\r\nDate: Thu, 01 Jan 1970 00:00:01 GMT\r\n")?;
    text.append(line.as_bytes())?;
    text.append(body)?;
    Ok(text)
}

/// Whether the body of the empty listing is bad wherever it is cut, if so few of its bytes are announced.
fn is_bad_when_short(alloc: Global, announced: usize) -> Result<bool, Fail> {
    let (_, body) = LOCKS.split_at(LOCKS.len().saturating_sub(263));
    let text = listing(alloc, announced, body)?;
    is_told_in_any_cut(alloc, &Call::List(Dir::Locks), text.as_slice(), "bad")
}

#[test]
fn a_listing_that_ends_early_is_bad(rt: HostRuntime) -> Result<(), Fail> {
    // Nothing, no end, an end without its line feed.
    for announced in [0, 246, 262] {
        assert!(rt; is_bad_when_short(rt.alloc(), announced)?, "{announced}");
    }
    Ok(())
}

/// What is told of the listing of one lock.
const ONE_LOCK: &str =
    "listed at 1000, locks/1_3_11111111111111111111111111111111.json of 1000, 0 behind";

/// The response that lists one lock.
fn one_lock(alloc: Global) -> Result<Bytes, Fail> {
    let name = LockName::read(b"1_3_11111111111111111111111111111111.json").ok_or("a lock")?;
    let entry = Entry {
        path: Path::Lock(name),
        stamp: 1_000,
    };
    let body = write_multistatus(alloc, Dir::Locks, &[entry])?;
    Ok(listing(alloc, body.len(), body.as_slice())?)
}

#[test]
fn the_longest_line_is_held_up_to_its_line_feed(rt: HostRuntime) -> Result<(), Fail> {
    let call = Call::List(Dir::Locks);
    let text = one_lock(rt.alloc())?;
    let (_, body) = most_held(rt.alloc(), &call, text.as_slice())?;
    assert_eq!(rt; text.len(), 604);
    assert_eq!(rt; body, 253);
    assert!(rt; is_told_in_any_cut(rt.alloc(), &call, text.as_slice(), ONE_LOCK)?);
    Ok(())
}

/// A response whose head has so many bytes.
fn long_head(alloc: Global, len: usize) -> Result<Bytes, AllocError> {
    let (start, end) = INFO.split_at(17);
    let fill = vec![in alloc; b'x'; len.saturating_sub(INFO.len() + 2)]?;
    let mut text = Bytes::new(alloc);
    text.append(start)?;
    text.append(b"a:")?;
    text.append(fill.as_slice())?;
    text.append(b"\r\n")?;
    text.append(end)?;
    Ok(text)
}

/// Whether this is told of a response of such a head, cut in these places.
fn is_told_behind(alloc: Global, len: usize, wanted: &str) -> Result<bool, Fail> {
    let text = long_head(alloc, len)?;
    for cut in [0, 1, 10_000, 16_382, 16_383, 16_384] {
        let cut = cut.min(text.len());
        let said = told_in_two(alloc, &Call::Get(Path::Info), text.as_slice(), cut)?;
        if said.as_str() != wanted {
            return Ok(false);
        }
    }
    Ok(true)
}

#[test]
fn a_head_in_pieces_has_its_limit(rt: HostRuntime) -> Result<(), Fail> {
    assert!(rt; is_told_behind(rt.alloc(), 16_384, "got 2 bytes at 1000, 0 behind")?);
    assert!(rt; is_told_behind(rt.alloc(), 16_385, "bad")?);
    Ok(())
}

#[test]
fn a_head_is_held_up_to_its_last_byte(rt: HostRuntime) -> Result<(), Fail> {
    let text = long_head(rt.alloc(), 16_384)?;
    let piece = text.as_slice().get(..16_383).ok_or("a head")?;
    let held = held_behind(rt.alloc(), &Call::Get(Path::Info), piece)?;
    assert!(rt; held == Some((16_383, 0)));
    Ok(())
}

use dav_wire::{
    ReadRequest, ReadResponse, Request, read_request, read_response, request_missing,
    response_missing, split_request, write_refusal, write_request, write_response,
};
use jop_base::{Bytes, Dir, Path, Seq, Text};
use jop_target::{Call, Listing, Reply};
use std::alloc::{AllocError, Global};
use std::test::Fail;

/// A word for what is read, and a number that belongs to it.
type Seen = (&'static str, u64);

fn seen_whole(request: &Request, used: u64) -> Seen {
    match &request.call {
        Some(_) => ("call", used),
        None => ("refused", u64::from(request.refusal)),
    }
}

fn seen_in(read: &ReadRequest, bytes: &[u8]) -> Seen {
    match read {
        ReadRequest::More => ("more", request_missing(bytes).unwrap_or(0)),
        ReadRequest::Bad(status) => ("bad", u64::from(*status)),
        ReadRequest::Whole { request, used } => seen_whole(request, *used),
    }
}

/// What is read of a request: how many bytes a call's takes, how it is refused, or how many bytes
/// are missing.
fn seen(alloc: Global, bytes: &[u8]) -> Result<Seen, AllocError> {
    let read = read_request(alloc, bytes)?;
    Ok(seen_in(&read, bytes))
}

fn told_by(reply: &Reply) -> Seen {
    match reply {
        Reply::Listed(listing) => ("listed", listing.now),
        Reply::Got { now, content: _ } => ("got", *now),
        Reply::GotBlob { now, len: _ } => ("got blob", *now),
        Reply::Absent { now } => ("absent", *now),
        Reply::Done { now } => ("done", *now),
        Reply::Failed => ("failed", 0),
        Reply::TooLarge { len } => ("too large", *len),
    }
}

fn told_in(read: &ReadResponse, call: &Call, bytes: &[u8]) -> Seen {
    match read {
        ReadResponse::More => ("more", response_missing(call, bytes).unwrap_or(0)),
        ReadResponse::Bad => ("bad", 0),
        ReadResponse::Whole {
            reply,
            blob: _,
            used: _,
        } => told_by(reply),
    }
}

/// What is read of a response: the moment of a reply, the length of a file that is too long, or how
/// many bytes are missing.
fn told(alloc: Global, call: &Call, bytes: &[u8]) -> Result<Seen, AllocError> {
    let read = read_response(alloc, call, bytes)?;
    Ok(told_in(&read, call, bytes))
}

fn is_seen(alloc: Global, text: &[u8], wanted: Seen) -> Result<bool, AllocError> {
    Ok(seen(alloc, text)? == wanted)
}

/// Texts of requests, and what is read of each.
const REQUESTS: [(&[u8], Seen); 24] = [
    (b"GET /info.json HTTP/1.1\r\n\r\n", ("call", 27)),
    (b"\r\nGET /info.json HTTP/1.0\n\n", ("call", 27)),
    (b"GET /info.json HTTP/2.0\r\n\r\n", ("bad", 400)),
    (b"GET /info.json\r\n\r\n", ("bad", 400)),
    (b"GET /x HTTP/1.1\r\n\r\n", ("refused", 404)),
    (b"GET /locks/ HTTP/1.1\r\n\r\n", ("refused", 404)),
    (b"GET /info%2Ejson HTTP/1.1\r\n\r\n", ("refused", 404)),
    (b"GET http://h/info.json HTTP/1.1\r\n\r\n", ("refused", 404)),
    (b"GET /\xff", ("more", 0)),
    (b"GET /\xff HTTP/1.1\r\n\r\n", ("bad", 400)),
    (b"\x01", ("bad", 400)),
    (b"", ("more", 0)),
    (b"get /info.json HTTP/1.1\r\n\r\n", ("refused", 405)),
    (b"OPTIONS / HTTP/1.1\r\n\r\n", ("refused", 405)),
    (b"DELETE /info.json HTTP/1.1\r\n\r\n", ("call", 30)),
    (b"MKCOL /locks/ HTTP/1.1\r\n\r\n", ("call", 26)),
    (b"MKCOL /x/ HTTP/1.1\r\n\r\n", ("refused", 403)),
    (b"PROPFIND /locks/ HTTP/1.1\r\n\r\n", ("refused", 400)),
    (
        b"PROPFIND /locks/ HTTP/1.1\r\nDepth: 0\r\n\r\n",
        ("refused", 400),
    ),
    (
        b"PROPFIND /locks/ HTTP/1.1\r\nDepth: infinity\r\n\r\n",
        ("refused", 400),
    ),
    (
        b"PROPFIND /locks/ HTTP/1.1\r\nDepth: 1\r\nDepth: 1\r\n\r\n",
        ("refused", 400),
    ),
    (
        b"PROPFIND /locks/ HTTP/1.1\r\ndepth:1 \r\n\r\n",
        ("call", 39),
    ),
    (
        b"PROPFIND /locks HTTP/1.1\r\nDepth: 1\r\n\r\n",
        ("refused", 404),
    ),
    (
        b"POST /x HTTP/1.1\r\nTransfer-Encoding: chunked\r\n\r\n",
        ("bad", 400),
    ),
];

#[test]
fn requests_are_read_or_refused(rt: HostRuntime) -> Result<(), Fail> {
    for (text, wanted) in REQUESTS {
        assert!(rt; is_seen(rt.alloc(), text, wanted)?);
    }
    Ok(())
}

/// The head of a request that puts, with these lines.
fn put_head(alloc: Global, target: &[u8], lines: &[u8]) -> Result<Bytes, AllocError> {
    let mut head = Bytes::new(alloc);
    head.append(b"PUT ")?;
    head.append(target)?;
    head.append(b" HTTP/1.1\r\n")?;
    head.append(lines)?;
    head.append(b"\r\n")?;
    Ok(head)
}

fn is_put(alloc: Global, target: &[u8], lines: &[u8], wanted: Seen) -> Result<bool, AllocError> {
    let head = put_head(alloc, target, lines)?;
    is_seen(alloc, head.as_slice(), wanted)
}

const INFO: &[u8] = b"/info.json";

const BLOB: &[u8] = b"/.resource/11111111111111111111111111111111";

/// Targets of puts, lines of their heads, and what is read of them.
const LENGTHS: [(&[u8], &[u8], Seen); 17] = [
    (INFO, b"", ("bad", 400)),
    (INFO, b"Content-Length: 0\r\n", ("call", 46)),
    (INFO, b"CONTENT-LENGTH:\t00 \r\n", ("call", 48)),
    (INFO, b"Content-Length: 3\r\n", ("more", 3)),
    (INFO, b"Content-Length: +1\r\n", ("bad", 400)),
    (INFO, b"Content-Length: -1\r\n", ("bad", 400)),
    (INFO, b"Content-Length: 1 1\r\n", ("bad", 400)),
    (INFO, b"Content-Length: 0x1\r\n", ("bad", 400)),
    (INFO, b"Content-Length:\r\n", ("bad", 400)),
    (
        INFO,
        b"Content-Length: 0\r\nContent-Length: 0\r\n",
        ("bad", 400),
    ),
    (
        INFO,
        b"Content-Length: 18446744073709551616\r\n",
        ("bad", 400),
    ),
    (
        INFO,
        b"Content-Length: 18446744073709551615\r\n",
        ("bad", 413),
    ),
    (INFO, b"Content-Length: 16777216\r\n", ("more", 16_777_216)),
    (INFO, b"Content-Length: 16777217\r\n", ("bad", 413)),
    (BLOB, b"Content-Length: 67108864\r\n", ("more", 67_108_864)),
    (BLOB, b"Content-Length: 67108865\r\n", ("bad", 413)),
    (b"/x", b"Content-Length: 0\r\n", ("refused", 403)),
];

#[test]
fn lengths_are_read_or_refused(rt: HostRuntime) -> Result<(), Fail> {
    for (target, lines, wanted) in LENGTHS {
        assert!(rt; is_put(rt.alloc(), target, lines, wanted)?);
    }
    Ok(())
}

/// Whether the text is bad with this byte in this place of it.
fn is_bad_with(alloc: Global, text: &[u8], place: usize, byte: u8) -> Result<bool, AllocError> {
    let mut changed = text.to_vec(alloc)?;
    if let Some(old) = changed.get_mut(place) {
        *old = byte;
    }
    is_seen(alloc, changed.as_slice(), ("bad", 400))
}

/// Whether the text is bad with each control character in this place of it.
fn is_bad_at(alloc: Global, text: &[u8], place: usize) -> Result<bool, AllocError> {
    for byte in [0_u8, 1, 8, 11, 12, 14, 27, 31, 127] {
        if !is_bad_with(alloc, text, place, byte)? {
            return Ok(false);
        }
    }
    Ok(true)
}

#[test]
fn control_characters_are_refused_in_every_place(rt: HostRuntime) -> Result<(), Fail> {
    let text: &[u8] = b"GET /info.json HTTP/1.1\r\nHost: h\r\n\r\n";
    for place in 0..text.len() {
        assert!(rt; is_bad_at(rt.alloc(), text, place)?, "{place}");
    }
    Ok(())
}

/// A request with so many fields, the last of which has so long a value.
fn long_head(alloc: Global, fields: u64, value: usize) -> Result<Bytes, AllocError> {
    let mut head = Bytes::new(alloc);
    head.append(b"GET /info.json HTTP/1.1\r\n")?;
    for _ in 1..fields {
        head.append(b"a:b\r\n")?;
    }
    let letters = vec![in alloc; b'x'; value]?;
    head.append(b"a:")?;
    head.append(letters.as_slice())?;
    head.append(b"\r\n\r\n")?;
    Ok(head)
}

/// Whether more is wanted of the head without its last byte, or of what is short of the limit.
fn is_more_when_cut(alloc: Global, head: &[u8]) -> Result<bool, AllocError> {
    let end = head.len().min(16_384).saturating_sub(1);
    match head.get(..end) {
        Some(cut) => is_seen(alloc, cut, ("more", 0)),
        None => Ok(false),
    }
}

fn is_limited(alloc: Global, fields: u64, value: usize, wanted: Seen) -> Result<bool, AllocError> {
    let head = long_head(alloc, fields, value)?;
    Ok(is_seen(alloc, head.as_slice(), wanted)? && is_more_when_cut(alloc, head.as_slice())?)
}

/// How many fields a head has, how long the value of one is in bytes, and what is read of it.
const LIMITS: [(u64, usize, Seen); 5] = [
    (1, 16_353, ("call", 16_384)),
    (1, 16_354, ("bad", 400)),
    (128, 0, ("call", 666)),
    (129, 0, ("bad", 400)),
    (3_000, 0, ("bad", 400)),
];

#[test]
fn heads_have_their_limits(rt: HostRuntime) -> Result<(), Fail> {
    for (fields, value, wanted) in LIMITS {
        assert!(rt; is_limited(rt.alloc(), fields, value, wanted)?);
    }
    Ok(())
}

/// The head of a response, with these lines.
fn response_head(
    alloc: Global,
    status: &[u8],
    date: &[u8],
    lines: &[u8],
) -> Result<Bytes, AllocError> {
    let mut head = Bytes::new(alloc);
    for piece in [
        b"HTTP/1.1 ".as_slice(),
        status,
        b"\r\n",
        date,
        lines,
        b"\r\n",
    ] {
        head.append(piece)?;
    }
    Ok(head)
}

fn is_told(alloc: Global, call: &Call, text: &[u8], wanted: Seen) -> Result<bool, AllocError> {
    Ok(told(alloc, call, text)? == wanted)
}

/// Whether a response to a get is read so.
fn is_response(
    alloc: Global,
    (status, date, lines): (&[u8], &[u8], &[u8]),
    wanted: Seen,
) -> Result<bool, AllocError> {
    let head = response_head(alloc, status, date, lines)?;
    is_told(alloc, &Call::Get(Path::Info), head.as_slice(), wanted)
}

const DATE: &[u8] = b"Date: Thu, 01 Jan 1970 00:00:01 GMT\r\n";

/// Lines of status, date and length of a response, and what is read of it.
const RESPONSES: [(&[u8], &[u8], &[u8], Seen); 17] = [
    (b"200 OK", DATE, b"Content-Length: 0\r\n", ("got", 1_000)),
    (b"200", DATE, b"Content-Length: 0\r\n", ("got", 1_000)),
    (b"200 OK", DATE, b"Content-Length: 3\r\n", ("more", 3)),
    (b"404 No", DATE, b"Content-Length: 0\r\n", ("absent", 1_000)),
    (
        b"200 OK",
        DATE,
        b"Content-Length: 16777217\r\n",
        ("too large", 16_777_217),
    ),
    (b"201 Created", DATE, b"Content-Length: 0\r\n", ("bad", 0)),
    (b"500 No", DATE, b"Content-Length: 0\r\n", ("bad", 0)),
    (b"200 OK", b"", b"Content-Length: 0\r\n", ("bad", 0)),
    (
        b"200 OK",
        DATE,
        b"Date: Thu, 01 Jan 1970 00:00:01 GMT\r\nContent-Length: 0\r\n",
        ("bad", 0),
    ),
    (
        b"200 OK",
        b"Date: 1\r\n",
        b"Content-Length: 0\r\n",
        ("bad", 0),
    ),
    (
        b"200 OK",
        b"Date: Fri, 01 Jan 1970 00:00:01 GMT\r\n",
        b"Content-Length: 0\r\n",
        ("bad", 0),
    ),
    (
        b"200 OK",
        b"Date: Thu Jan  1 00:00:02 1970\r\n",
        b"Content-Length: 0\r\n",
        ("got", 2_000),
    ),
    (b"200 OK", DATE, b"", ("bad", 0)),
    (b"200 OK", DATE, b"Content-Length: +1\r\n", ("bad", 0)),
    (
        b"200 OK",
        DATE,
        b"Content-Length: 0\r\nContent-Length: 0\r\n",
        ("bad", 0),
    ),
    (
        b"200 OK",
        DATE,
        b"Content-Length: 18446744073709551616\r\n",
        ("bad", 0),
    ),
    (
        b"200 OK",
        DATE,
        b"Transfer-Encoding: chunked\r\n",
        ("bad", 0),
    ),
];

#[test]
fn responses_are_read_or_refused(rt: HostRuntime) -> Result<(), Fail> {
    for (status, date, lines, wanted) in RESPONSES {
        assert!(rt; is_response(rt.alloc(), (status, date, lines), wanted)?);
    }
    Ok(())
}

/// The response that lists the locks, of which there are none.
fn empty_listing(alloc: Global) -> Result<Bytes, AllocError> {
    let reply = Reply::Listed(Listing {
        now: 1_000,
        entries: Seq::new(alloc),
    });
    let call = Call::List(Dir::Locks);
    write_response(alloc, &call, &reply, &Bytes::new(alloc), 0)
}

/// Whether more is wanted of the text, wherever it is cut.
fn is_more_in_any_cut(alloc: Global, call: &Call, text: &[u8]) -> Result<bool, AllocError> {
    for cut in 0..text.len() {
        if told(alloc, call, &text[..cut])?.0 != "more" {
            return Ok(false);
        }
    }
    Ok(true)
}

/// Whether a text has this head and so many bytes behind it.
fn has_head(text: &[u8], head: &[u8], len: usize) -> bool {
    match text.strip_prefix(head) {
        Some(rest) => rest.len() == len,
        None => false,
    }
}

#[test]
fn an_empty_listing_is_read_in_any_cut(rt: HostRuntime) -> Result<(), Fail> {
    let alloc = rt.alloc();
    let call = Call::List(Dir::Locks);
    let text = empty_listing(alloc)?;
    let head: &[u8] = b"HTTP/1.1 207 Multi-Status\r\nDate: Thu, 01 Jan 1970 00:00:01 GMT\r\n\
        Content-Type: application/xml; charset=\"utf-8\"\r\nContent-Length: 263\r\n\r\n";
    assert!(rt; has_head(text.as_slice(), head, 263));
    assert!(rt; is_told(alloc, &call, text.as_slice(), ("listed", 1_000))?);
    assert!(rt; is_more_in_any_cut(alloc, &call, text.as_slice())?);
    Ok(())
}

const REQUEST: &[u8] =
    b"PROPFIND /locks/ HTTP/1.1\r\nHost: h:80\r\nDepth: 1\r\nContent-Length: 0\r\n\r\n";

const REFUSAL: &[u8] =
    b"HTTP/1.1 413 Content Too Large\r\nDate: Thu, 01 Jan 1970 00:00:00 GMT\r\nContent-Length: 0\r\n\r\n";

/// The request that lists the locks.
fn listing_request(alloc: Global) -> Result<Bytes, AllocError> {
    let host = Text::of(alloc, "h:80")?;
    write_request(alloc, &host, &Call::List(Dir::Locks), &Bytes::new(alloc))
}

#[test]
fn a_request_is_written(rt: HostRuntime) -> Result<(), Fail> {
    let text = listing_request(rt.alloc())?;
    assert!(rt; text.as_slice() == REQUEST);
    Ok(())
}

/// How many bytes the second part has of a request that puts so many, and whether both parts are
/// the whole request.
fn split_put(alloc: Global, len: usize) -> Result<(usize, bool), AllocError> {
    let none = Bytes::new(alloc);
    let host = Text::of(alloc, "h:80")?;
    let call = Call::Put(Path::Info, Bytes::from_vec(vec![in alloc; b'x'; len]?));
    let whole = write_request(alloc, &host, &call, &none)?;
    let (mut first, rest) = split_request(alloc, &host, &call, &none)?;
    first.append(rest)?;
    Ok((rest.len(), first == whole))
}

#[test]
fn a_long_request_is_split(rt: HostRuntime) -> Result<(), Fail> {
    for (len, rest) in [(0, 0), (65_536, 0), (65_537, 1), (200_000, 134_464)] {
        assert!(rt; split_put(rt.alloc(), len)? == (rest, true));
    }
    Ok(())
}

#[test]
fn a_refusal_is_written(rt: HostRuntime) -> Result<(), Fail> {
    let text = write_refusal(rt.alloc(), 413, 0)?;
    assert!(rt; text.as_slice() == REFUSAL);
    Ok(())
}

ghost use Rattle.std.specs.Prelude.{◌<◌};

use crate::drip_link::DripLink;
use crate::steps::{Step, bytes, host, tells};
use dav_link::MemLink;
use jop_base::{Bytes, Dir};
use std::alloc::{AllocError, Global};
use std::test::Fail;
use target_dav::DavTarget;

fn link_of(alloc: Global, text: &[u8]) -> Result<MemLink, AllocError> {
    Ok(MemLink::new(alloc, bytes(alloc, text)?))
}

/// A target over a link that gives these bytes.
fn target(alloc: Global, text: &[u8]) -> Result<DavTarget<MemLink>, AllocError> {
    let host = host(alloc)?;
    Ok(DavTarget::new(link_of(alloc, text)?, host))
}

/// One over a link that gives so many of them a read.
fn dripping(alloc: Global, text: &[u8], size: usize) -> Result<DavTarget<DripLink>, AllocError> {
    let host = host(alloc)?;
    let link = link_of(alloc, text)?;
    Ok(DavTarget::new(DripLink::new(link, size), host))
}

/// One over a link that gives them and fails at the call of this number.
fn failing(alloc: Global, text: &[u8], nth: u64) -> Result<DavTarget<MemLink>, AllocError> {
    let mut target = target(alloc, text)?;
    target.link.fail(nth)?;
    Ok(target)
}

pub(crate) const LOCKS: &[u8] = b"HTTP/1.1 207 Multi-Status\r\n\
Date: Thu, 01 Jan 1970 00:00:01 GMT\r\n\
Content-Type: application/xml; charset=\"utf-8\"\r\n\
Content-Length: 263\r\n\r\n\
<?xml version=\"1.0\" encoding=\"utf-8\"?>\n\
<d:multistatus xmlns:d=\"DAV:\">\n\
<d:response><d:href>/locks/</d:href><d:propstat><d:prop><d:resourcetype><d:collection/>\
</d:resourcetype></d:prop><d:status>HTTP/1.1 200 OK</d:status></d:propstat></d:response>\n\
</d:multistatus>\n";

const ABSENT: &[u8] =
    b"HTTP/1.1 404 Not Found\r\nDate: Thu, 01 Jan 1970 00:00:01 GMT\r\nContent-Length: 0\r\n\r\n";

const TWICE_ABSENT: &[u8] =
    b"HTTP/1.1 404 Not Found\r\nDate: Thu, 01 Jan 1970 00:00:01 GMT\r\nContent-Length: 0\r\n\r\n\
HTTP/1.1 404 Not Found\r\nDate: Thu, 01 Jan 1970 00:00:01 GMT\r\nContent-Length: 0\r\n\r\n";

/// Two responses, behind the first of which the server closes the link.
const CLOSED_BETWEEN: &[u8] =
    b"HTTP/1.1 404 Not Found\r\nDate: Thu, 01 Jan 1970 00:00:01 GMT\r\nConnection: Close\r\nContent-Length: 0\r\n\r\n\
HTTP/1.1 404 Not Found\r\nDate: Thu, 01 Jan 1970 00:00:01 GMT\r\nContent-Length: 0\r\n\r\n";

/// The same, of HTTP/1.0.
const OLD_BETWEEN: &[u8] =
    b"HTTP/1.0 404 Not Found\r\nDate: Thu, 01 Jan 1970 00:00:01 GMT\r\nContent-Length: 0\r\n\r\n\
HTTP/1.1 404 Not Found\r\nDate: Thu, 01 Jan 1970 00:00:01 GMT\r\nContent-Length: 0\r\n\r\n";

/// Calls, what a link has for each, what it is answered, and how often the target has failed then.
const RESPONSES: [(Step, &[u8], &str, u64); 15] = [
    (Step::List(Dir::Locks), LOCKS, "listed at 1000", 0),
    (Step::Get, b"", "failed", 1),
    (
        Step::Get,
        b"HTTP/1.1 404 Not Found\r\nContent-Length: 0\r\n\r\n",
        "failed",
        1,
    ),
    (
        Step::Get,
        b"HTTP/1.1 404 Not Found\r\nDate: Thu, 01 Jan 1970 00:00:01 GMT\r\nContent-Length: 0\r\n\r\n",
        "absent at 1000",
        0,
    ),
    (
        Step::Put,
        b"HTTP/1.1 404 Not Found\r\nDate: Thu, 01 Jan 1970 00:00:01 GMT\r\nContent-Length: 0\r\n\r\n",
        "failed",
        1,
    ),
    (Step::Put, b"HTTP/1.1 100 Continue\r\n\r\n", "failed", 1),
    (
        Step::Get,
        b"HTTP/1.1 302 Found\r\nDate: Thu, 01 Jan 1970 00:00:01 GMT\r\nContent-Length: 0\r\n\r\n",
        "failed",
        1,
    ),
    (
        Step::Get,
        b"HTTP/1.1 200 OK\r\nDate: Thu, 01 Jan 1970 00:00:01 GMT\r\nContent-Length: 3\r\n\r\nab",
        "failed",
        1,
    ),
    (
        Step::Get,
        b"HTTP/1.1 200 OK\r\nDate: Thu, 01 Jan 1970 00:00:01 GMT\r\nContent-Length: 2\r\n\r\nab",
        "got 2 bytes at 1000",
        0,
    ),
    (
        Step::Get,
        b"HTTP/1.1 200 OK\r\nDate: Thu, 01 Jan 1970 00:00:01 GMT\r\nContent-Length: 2\r\n\r\nabc",
        "got 2 bytes at 1000",
        0,
    ),
    (
        Step::Get,
        b"HTTP/1.1 200 OK\r\nDate: Thu, 01 Jan 1970 00:00:01 GMT\r\nContent-Length: 16777217\r\n\r\nab",
        "too large, 16777217 bytes",
        0,
    ),
    (
        Step::GetBlob,
        b"HTTP/1.1 200 OK\r\nDate: Thu, 01 Jan 1970 00:00:01 GMT\r\nContent-Length: 2\r\n\r\nab",
        "got blob of 2 bytes at 1000",
        0,
    ),
    // Longer than is waited for.
    (
        Step::GetBlob,
        b"HTTP/1.1 200 OK\r\nDate: Thu, 01 Jan 1970 00:00:01 GMT\r\nContent-Length: 67108865\r\n\r\nab",
        "too large, 67108865 bytes",
        0,
    ),
    (
        Step::List(Dir::Root),
        b"HTTP/1.1 207 Multi-Status\r\nDate: Thu, 01 Jan 1970 00:00:01 GMT\r\nContent-Length: 268435459\r\n\r\nab",
        "failed",
        1,
    ),
    (
        Step::Get,
        b"HTTP/1.1 404 Not Found\r\nDate: Thu, 01 Jan 1970 00:00:01 GMT\r\nContent-Length: 16777219\r\n\r\nab",
        "failed",
        1,
    ),
];

/// Whether a call is answered so over a link that has these bytes, with so many faults.
fn is_answered(
    alloc: Global,
    step: Step,
    text: &[u8],
    wanted: &str,
    faults: u64,
) -> Result<bool, Fail> {
    let mut target = target(alloc, text)?;
    Ok(tells(alloc, &mut target, step, wanted)? && target.faults() == faults)
}

/// How many of the responses are told as they should be, until one isn't.
fn count_told(alloc: Global) -> Result<usize, Fail> {
    for (count, (step, text, wanted, faults)) in RESPONSES.into_iter().enumerate() {
        if !is_answered(alloc, step, text, wanted, faults)? {
            return Ok(count);
        }
    }
    Ok(RESPONSES.len())
}

#[test]
fn responses_are_told_or_failed(rt: HostRuntime) -> Result<(), Fail> {
    assert_eq!(rt; count_told(rt.alloc())?, 15);
    Ok(())
}

fn is_told_in_drips(alloc: Global) -> Result<bool, Fail> {
    let mut target = dripping(alloc, LOCKS, 1)?;
    tells(alloc, &mut target, Step::List(Dir::Locks), "listed at 1000")
}

#[test]
fn a_response_in_single_bytes_is_told(rt: HostRuntime) -> Result<(), Fail> {
    assert!(rt; is_told_in_drips(rt.alloc())?);
    Ok(())
}

/// Whether a get fails, and the next one doesn't, over a link that is opened anew.
fn is_opened_anew(alloc: Global, nth: u64) -> Result<bool, Fail> {
    let mut target = failing(alloc, ABSENT, nth)?;
    let failed = tells(alloc, &mut target, Step::Get, "failed")?;
    let told = tells(alloc, &mut target, Step::Get, "absent at 1000")?;
    Ok(failed && told && target.faults() == 1 && target.link.opened() == 2)
}

#[test]
fn a_link_that_fails_is_opened_anew(rt: HostRuntime) -> Result<(), Fail> {
    for nth in 1..4 {
        assert!(rt; is_opened_anew(rt.alloc(), nth)?);
    }
    Ok(())
}

/// How often a link that has these two responses is opened for two gets. 0 if one isn't answered.
fn openings(alloc: Global, text: &[u8]) -> Result<u64, Fail> {
    let mut target = dripping(alloc, text, 1)?;
    let first = tells(alloc, &mut target, Step::Get, "absent at 1000")?;
    let second = tells(alloc, &mut target, Step::Get, "absent at 1000")?;
    if first && second && target.faults() == 0 {
        return Ok(target.link.link.opened());
    }
    Ok(0)
}

#[test]
fn a_link_is_kept_for_the_next_call(rt: HostRuntime) -> Result<(), Fail> {
    assert_eq!(rt; openings(rt.alloc(), TWICE_ABSENT)?, 1);
    Ok(())
}

#[test]
fn a_link_that_the_server_closes_is_opened_again(rt: HostRuntime) -> Result<(), Fail> {
    assert_eq!(rt; openings(rt.alloc(), CLOSED_BETWEEN)?, 2);
    assert_eq!(rt; openings(rt.alloc(), OLD_BETWEEN)?, 2);
    Ok(())
}

/// A response behind which the server leaves the link open.
const STAYING: &[u8] =
    b"HTTP/1.1 404 Not Found\r\nDate: Thu, 01 Jan 1970 00:00:01 GMT\r\nConnection: alive\r\nContent-Length: 0\r\n\r\n";

/// One of the same length, behind which it closes it.
const CLOSING: &[u8] =
    b"HTTP/1.1 404 Not Found\r\nDate: Thu, 01 Jan 1970 00:00:01 GMT\r\nConnection: close\r\nContent-Length: 0\r\n\r\n";

/// Three hundred responses, behind each of which whose number this one divides the server closes the link.
fn three_hundred(alloc: Global, every: u64) -> Result<Bytes, AllocError>
    requires { 0 < every }
{
    let mut text = Bytes::new(alloc);
    for number in 1..=300 {
        if number % every == 0 {
            text.append(CLOSING)?;
        } else {
            text.append(STAYING)?;
        }
    }
    Ok(text)
}

/// How many of three hundred gets are answered, until one isn't.
fn count_absent(alloc: Global, target: &mut DavTarget<DripLink>) -> Result<usize, Fail> {
    for count in 0..300 {
        if !tells(alloc, target, Step::Get, "absent at 1000")? {
            return Ok(count);
        }
    }
    Ok(300)
}

/// How often the link is opened for three hundred gets of a server that closes it so often. 0 if one isn't answered.
fn openings_of_many(alloc: Global, every: u64) -> Result<u64, Fail>
    requires { 0 < every }
{
    let text = three_hundred(alloc, every)?;
    let mut target = dripping(alloc, text.as_slice(), STAYING.len())?;
    let count = count_absent(alloc, &mut target)?;
    if count == 300 && target.faults() == 0 {
        return Ok(target.link.link.opened());
    }
    Ok(0)
}

#[test]
fn a_server_may_close_the_link_behind_each_call_or_each_hundredth(
    rt: HostRuntime,
) -> Result<(), Fail> {
    assert_eq!(rt; openings_of_many(rt.alloc(), 1)?, 300);
    assert_eq!(rt; openings_of_many(rt.alloc(), 100)?, 3);
    assert_eq!(rt; openings_of_many(rt.alloc(), 301)?, 1);
    Ok(())
}

/// What a link has that ends so many bytes into the second response.
fn ended_amid(alloc: Global, cut: usize) -> Result<Bytes, AllocError> {
    let mut text = bytes(alloc, STAYING)?;
    text.append(STAYING.get(..cut).unwrap_or(STAYING))?;
    Ok(text)
}

/// Whether the second get is a fault then, and the third is made over a link that is opened anew.
fn is_fault_amid(alloc: Global, cut: usize) -> Result<bool, Fail> {
    let text = ended_amid(alloc, cut)?;
    let mut target = dripping(alloc, text.as_slice(), STAYING.len())?;
    for wanted in ["absent at 1000", "failed", "failed"] {
        if !tells(alloc, &mut target, Step::Get, wanted)? {
            return Ok(false);
        }
    }
    Ok(target.faults() == 2 && target.link.link.opened() == 2)
}

#[test]
fn an_end_amid_a_response_is_a_fault(rt: HostRuntime) -> Result<(), Fail> {
    for cut in 0..STAYING.len() {
        assert!(rt; is_fault_amid(rt.alloc(), cut)?, "{cut}");
    }
    Ok(())
}

/// How often a link is written and read for a call that is answered so.
fn journeys(alloc: Global, step: Step, text: &[u8], wanted: &str) -> Result<(u64, u64), Fail> {
    let mut target = dripping(alloc, text, 65_536)?;
    if !tells(alloc, &mut target, step, wanted)? {
        return Ok((0, 0));
    }
    Ok((target.link.writes, target.link.reads))
}

const MADE: &[u8] =
    b"HTTP/1.1 201 Created\r\nDate: Thu, 01 Jan 1970 00:00:01 GMT\r\nContent-Length: 0\r\n\r\n";

const GOT: &[u8] =
    b"HTTP/1.1 200 OK\r\nDate: Thu, 01 Jan 1970 00:00:01 GMT\r\nContent-Length: 7\r\n\r\ncontent";

#[test]
fn a_call_is_written_at_once_and_answered_at_once(rt: HostRuntime) -> Result<(), Fail> {
    for (step, text, wanted) in [
        (Step::Put, MADE, "done at 1000"),
        (Step::PutBlob, MADE, "done at 1000"),
        (Step::Get, GOT, "got 7 bytes at 1000"),
        (Step::GetBlob, GOT, "got blob of 7 bytes at 1000"),
        (Step::List(Dir::Locks), LOCKS, "listed at 1000"),
    ] {
        assert!(rt;
            journeys(rt.alloc(), step, text, wanted)? == (1, 1),
            "{wanted}"
        );
    }
    Ok(())
}

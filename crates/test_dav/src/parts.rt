use dav_parts::{append_decimal, read_moment, read_multistatus, write_multistatus};
use jop_base::{Bytes, Dir, Path};
use jop_target::Entry;
use std::alloc::{AllocError, Global};
use std::test::Fail;

const HEADING: &[u8] =
    b"<?xml version=\"1.0\" encoding=\"utf-8\"?>\n<d:multistatus xmlns:d=\"DAV:\">\n\
    <d:response><d:href>/</d:href><d:propstat><d:prop><d:resourcetype><d:collection/></d:resourcetype></d:prop>\
    <d:status>HTTP/1.1 200 OK</d:status></d:propstat></d:response>\n";

const ENDING: &[u8] = b"</d:multistatus>\n";

const NOTE: &[u8] = b"/11111111111111111111111111111111.md";

const LATER_NOTE: &[u8] = b"/22222222222222222222222222222222.md";

const SECOND: &[u8] = b"Thu, 01 Jan 1970 00:00:01 GMT";

/// The line of a file by its target and date.
fn append_file(body: &mut Bytes, target: &[u8], date: &[u8]) -> Result<(), AllocError> {
    body.append(b"<d:response><d:href>")?;
    body.append(target)?;
    body.append(b"</d:href><d:propstat><d:prop><d:getlastmodified>")?;
    body.append(date)?;
    body.append(
        b"</d:getlastmodified><d:resourcetype/></d:prop><d:status>HTTP/1.1 200 OK</d:status>",
    )?;
    body.append(b"</d:propstat></d:response>\n")
}

/// The body of these files and this end.
fn body_of(alloc: Global, files: &[(&[u8], &[u8])], end: &[u8]) -> Result<Bytes, AllocError> {
    let mut body = Bytes::new(alloc);
    body.append(HEADING)?;
    for (target, date) in files {
        append_file(&mut body, target, date)?;
    }
    body.append(end)?;
    Ok(body)
}

/// How many files a body of the root is read as; 9 if it is none.
fn count_of(alloc: Global, body: &[u8]) -> Result<usize, AllocError> {
    Ok(match read_multistatus(alloc, Dir::Root, body)? {
        Some(entries) => entries.len(),
        None => 9,
    })
}

/// The same of the body of these files and this end.
fn count_in(alloc: Global, files: &[(&[u8], &[u8])], end: &[u8]) -> Result<usize, AllocError> {
    let body = body_of(alloc, files, end)?;
    count_of(alloc, body.as_slice())
}

/// The files of a body, its end, and how many files it is read as, 9 if it is refused.
const BODIES: [(&[(&[u8], &[u8])], &[u8], usize); 14] = [
    (&[], ENDING, 0),
    (&[(NOTE, SECOND)], ENDING, 1),
    (&[(NOTE, SECOND), (LATER_NOTE, SECOND)], ENDING, 2),
    // Falling, and twice the same.
    (&[(LATER_NOTE, SECOND), (NOTE, SECOND)], ENDING, 9),
    (&[(NOTE, SECOND), (NOTE, SECOND)], ENDING, 9),
    // No path, another folder's, and a target with a percent sign.
    (&[(b"/x", SECOND)], ENDING, 9),
    (
        &[(b"/locks/1_3_11111111111111111111111111111111.json", SECOND)],
        ENDING,
        9,
    ),
    (&[(b"/info%2Ejson", SECOND)], ENDING, 9),
    // Other forms of dates.
    (&[(NOTE, b"Thursday, 01-Jan-70 00:00:01 GMT")], ENDING, 9),
    (&[(NOTE, b"Thu Jan  1 00:00:01 1970")], ENDING, 9),
    (&[(NOTE, b"Fri, 01 Jan 1970 00:00:01 GMT")], ENDING, 9),
    // Without its end, with a carriage return in it, and with a byte after it.
    (&[(NOTE, SECOND)], b"", 9),
    (&[(NOTE, SECOND)], b"</d:multistatus>\r\n", 9),
    (&[(NOTE, SECOND)], b"</d:multistatus>\n\n", 9),
];

#[test]
fn bodies_are_read_or_refused(rt: HostRuntime) -> Result<(), Fail> {
    for (files, end, wanted) in BODIES {
        assert_eq!(rt; count_in(rt.alloc(), files, end)?, wanted);
    }
    Ok(())
}

/// How many files a body is read as in which one bit of this byte was turned.
fn count_with(alloc: Global, body: &[u8], place: usize) -> Result<usize, AllocError> {
    let mut changed = body.to_vec(alloc)?;
    if let Some(byte) = changed.get_mut(place) {
        *byte ^= 1;
    }
    count_of(alloc, changed.as_slice())
}

#[test]
fn each_byte_of_the_layout_counts(rt: HostRuntime) -> Result<(), Fail> {
    let body = body_of(rt.alloc(), &[], ENDING)?;
    for place in 0..body.len() {
        assert_eq!(rt; count_with(rt.alloc(), body.as_slice(), place)?, 9);
    }
    Ok(())
}

/// Whether the listing of one file is written so.
fn is_written(alloc: Global, wanted: &[u8]) -> Result<bool, AllocError> {
    let entry = Entry {
        path: Path::Info,
        stamp: 1_999,
    };
    Ok(write_multistatus(alloc, Dir::Root, &[entry])?.as_slice() == wanted)
}

fn empty_len(alloc: Global) -> Result<usize, AllocError> {
    Ok(write_multistatus(alloc, Dir::Locks, &[])?.len())
}

#[test]
fn a_listing_is_written(rt: HostRuntime) -> Result<(), Fail> {
    let wanted = body_of(rt.alloc(), &[(b"/info.json", SECOND)], ENDING)?;
    assert!(rt; is_written(rt.alloc(), wanted.as_slice())?);
    assert_eq!(rt; empty_len(rt.alloc())?, 263);
    Ok(())
}

/// Texts of dates, and the moments that they name.
const DATES: [(&[u8], Option<u64>); 6] = [
    (SECOND, Some(1_000)),
    (b"Thursday, 01-Jan-70 00:00:01 GMT", Some(1_000)),
    (b"Thu Jan  1 00:00:01 1970", Some(1_000)),
    (b"Thu, 01 Jan 1970 00:00:01 UTC", None),
    (b"1", None),
    (b"", None),
];

#[test]
fn dates_have_three_forms(rt: HostRuntime) {
    for (text, wanted) in DATES {
        assert!(rt; read_moment(text) == wanted);
    }
}

fn greatest_number(alloc: Global) -> Result<Bytes, AllocError> {
    let mut number = Bytes::new(alloc);
    append_decimal(alloc, &mut number, u64::MAX)?;
    Ok(number)
}

#[test]
fn numbers_are_written_in_full(rt: HostRuntime) -> Result<(), Fail> {
    let number = greatest_number(rt.alloc())?;
    assert!(rt; number.as_slice() == b"18446744073709551615".as_slice());
    Ok(())
}

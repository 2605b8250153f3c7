use dav_link::{LinkErr, MemLink};
use http_exchange::exchange;
use http1::Header;
use jop_base::Bytes;
use std::alloc::{AllocError, Global};
use std::test::Fail;

const FIELDS: [Header<'static>; 1] = [Header {
    name: b"Host",
    value: b"localhost:80",
}];

fn link_of(alloc: Global, text: &[u8]) -> Result<MemLink, AllocError> {
    let mut bytes = Bytes::new(alloc);
    bytes.append(text)?;
    Ok(MemLink::new(alloc, bytes))
}

/// The status that a GET is answered over a link with these bytes, its body, and whether the link is ready for another
/// request.
fn answered(alloc: Global, text: &[u8]) -> Result<(u16, Bytes, bool), LinkErr> {
    let mut link = link_of(alloc, text)?;
    let received = exchange(
        alloc, &mut link, b"GET", b"/dav/a", &FIELDS, b"", 1_000, 100_000,
    )?;
    Ok((received.told.status, received.body, received.ready))
}

/// What comes, the status and the body that are read, and whether the link is ready then.
const ANSWERS: [(&[u8], u16, &[u8], bool); 8] = [
    (
        b"HTTP/1.1 200 OK\r\nContent-Length: 3\r\n\r\nabc",
        200,
        b"abc",
        true,
    ),
    (
        b"HTTP/1.1 405 No\r\nTransfer-Encoding: chunked\r\n\r\n2\r\nab\r\n1\r\nc\r\n0\r\n\r\n",
        405,
        b"abc",
        true,
    ),
    (
        b"HTTP/1.0 207 Multi-Status\r\nServer: x\r\n\r\nabc",
        207,
        b"abc",
        false,
    ),
    (
        b"HTTP/1.1 204 No Content\r\nContent-Length: 0\r\nConnection: close\r\n\r\n",
        204,
        b"",
        false,
    ),
    // Bytes that nobody asked for.
    (
        b"HTTP/1.1 204 No Content\r\n\r\nHTTP/1.1 200 OK\r\n\r\n",
        204,
        b"",
        false,
    ),
    // Heads of 1xx.
    (
        b"HTTP/1.1 100 Continue\r\n\r\nHTTP/1.1 204 No Content\r\n\r\n",
        204,
        b"",
        true,
    ),
    (
        b"HTTP/1.1 102 Processing\r\n\r\nHTTP/1.1 103 Early\r\nLink: x\r\n\r\n\
HTTP/1.1 200 OK\r\nContent-Length: 1\r\n\r\na",
        200,
        b"a",
        true,
    ),
    (
        b"HTTP/1.1 304 Not Modified\r\nContent-Length: 9\r\n\r\n",
        304,
        b"",
        true,
    ),
];

/// How many answers are read as they should.
fn read_as_wanted(alloc: Global) -> usize {
    let mut count: usize = 0;
    for (text, status, body, ready) in &ANSWERS {
        if let Ok(told) = answered(alloc, text) {
            if told.0 == *status && told.1.as_slice() == *body && told.2 == *ready {
                count = count.saturating_add(1);
            }
        }
    }
    count
}

#[test]
fn answers_are_read(rt: HostRuntime) -> Result<(), Fail> {
    assert!(rt; read_as_wanted(rt.alloc()) == ANSWERS.len());
    Ok(())
}

/// What is no answer: nothing, cut bodies, both framings, another protocol, a head of 1xx alone.
const FAULTS: [&[u8]; 6] = [
    b"",
    b"HTTP/1.1 200 OK\r\nContent-Length: 4\r\n\r\nabc",
    b"HTTP/1.1 200 OK\r\nTransfer-Encoding: chunked\r\n\r\n2\r\nab\r\n",
    b"HTTP/1.1 200 OK\r\nContent-Length: 3\r\nTransfer-Encoding: chunked\r\n\r\n\
3\r\nabc\r\n0\r\n\r\n",
    b"HTTP/1.1 101 Switching\r\n\r\n",
    b"HTTP/1.1 100 Continue\r\n\r\n",
];

fn faults(alloc: Global) -> usize {
    let mut count: usize = 0;
    for text in &FAULTS {
        if answered(alloc, text).is_err() {
            count = count.saturating_add(1);
        }
    }
    count
}

#[test]
fn faults_are_told(rt: HostRuntime) -> Result<(), Fail> {
    assert!(rt; faults(rt.alloc()) == FAULTS.len());
    Ok(())
}

/// So many heads of 1xx and a response behind them: whether they are read.
fn passes(alloc: Global, heads: usize) -> Result<bool, LinkErr> {
    let mut text = Bytes::new(alloc);
    for _ in 0..heads {
        text.append(b"HTTP/1.1 102 Processing\r\n\r\n")?;
    }
    text.append(b"HTTP/1.1 204 No Content\r\n\r\n")?;
    Ok(answered(alloc, text.as_slice()).is_ok())
}

#[test]
fn sixteen_heads_of_1xx_are_passed_over(rt: HostRuntime) -> Result<(), Fail> {
    let alloc = rt.alloc();
    assert!(rt; matches!(passes(alloc, 16), Ok(true)));
    assert!(rt; matches!(passes(alloc, 17), Ok(false)));
    Ok(())
}

/// Whether a body is read whole.
fn is_kept(alloc: Global, head: &[u8], body: &[u8]) -> Result<bool, LinkErr> {
    let mut text = Bytes::new(alloc);
    text.append(head)?;
    text.append(body)?;
    match answered(alloc, text.as_slice()) {
        Ok(told) => Ok(told.1.as_slice() == body),
        Err(_) => Ok(false),
    }
}

#[test]
fn a_body_past_the_limit_is_not_kept(rt: HostRuntime) -> Result<(), Fail> {
    let alloc = rt.alloc();
    let head = b"HTTP/1.1 200 OK\r\nContent-Length: 1000\r\n\r\n";
    assert!(rt; matches!(is_kept(alloc, head, &[b'a'; 1000]), Ok(true)));
    let head = b"HTTP/1.1 200 OK\r\nContent-Length: 1001\r\n\r\n";
    assert!(rt; matches!(is_kept(alloc, head, &[b'a'; 1001]), Ok(false)));
    Ok(())
}

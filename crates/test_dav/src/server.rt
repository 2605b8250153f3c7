use crate::steps::bytes;
use dav_link::MemLink;
use dav_server::serve_connection;
use jop_target::{Diary, MemTarget, TargetLine};
use std::alloc::{AllocError, Global};
use std::test::Fail;

/// How many requests of a link are answered, None if not all could be.
fn served(
    alloc: Global,
    link: &mut MemLink,
    target: &mut MemTarget,
    diary: &mut Diary,
) -> Option<u64> {
    let mut line = TargetLine { target, diary };
    serve_connection(alloc, link, &mut line).ok()
}

fn served_anew(alloc: Global, link: &mut MemLink) -> Option<u64> {
    let mut target = MemTarget::new(alloc, 1_000, 1_000);
    let mut diary = Diary::new(alloc);
    served(alloc, link, &mut target, &mut diary)
}

/// Whether so many requests of these bytes are answered, by those.
fn is_answered(alloc: Global, text: &[u8], count: u64, wanted: &[u8]) -> Result<bool, AllocError> {
    let mut link = MemLink::new(alloc, bytes(alloc, text)?);
    let answered = served_anew(alloc, &mut link);
    Ok(answered == Some(count) && link.written() == wanted)
}

const LOCKS: &[u8] = b"HTTP/1.1 207 Multi-Status\r\n\
Date: Thu, 01 Jan 1970 00:00:01 GMT\r\n\
Content-Type: application/xml; charset=\"utf-8\"\r\n\
Content-Length: 263\r\n\r\n\
<?xml version=\"1.0\" encoding=\"utf-8\"?>\n\
<d:multistatus xmlns:d=\"DAV:\">\n\
<d:response><d:href>/locks/</d:href><d:propstat><d:prop><d:resourcetype><d:collection/>\
</d:resourcetype></d:prop><d:status>HTTP/1.1 200 OK</d:status></d:propstat></d:response>\n\
</d:multistatus>\n";

/// What comes over a link, how many requests of it are answered, and by which bytes.
const REQUESTS: [(&[u8], u64, &[u8]); 6] = [
    (b"PROPFIND /locks/ HTTP/1.1\r\nDepth: 1\r\n\r\n", 1, LOCKS),
    (
        b"PROPFIND /locks/ HTTP/1.1\r\nDepth: 0\r\n\r\n",
        1,
        b"HTTP/1.1 400 Bad Request\r\nDate: Thu, 01 Jan 1970 00:00:00 GMT\r\nContent-Length: 0\r\n\r\n",
    ),
    (
        b"PUT /x HTTP/1.1\r\nContent-Length: 1\r\n\r\nxGET /x HTTP/1.1\r\n\r\n",
        2,
        b"HTTP/1.1 403 Forbidden\r\nDate: Thu, 01 Jan 1970 00:00:00 GMT\r\nContent-Length: 0\r\n\r\n\
HTTP/1.1 404 Not Found\r\nDate: Thu, 01 Jan 1970 00:00:00 GMT\r\nContent-Length: 0\r\n\r\n",
    ),
    (
        b"PUT /info.json HTTP/1.1\r\nContent-Length: 16777217\r\n\r\nGET /x HTTP/1.1\r\n\r\n",
        1,
        b"HTTP/1.1 413 Content Too Large\r\nDate: Thu, 01 Jan 1970 00:00:00 GMT\r\nContent-Length: 0\r\n\r\n",
    ),
    (
        b"GET /x HTTP/1.1\r\nConnection: close\r\n\r\nGET /x HTTP/1.1\r\n\r\n",
        1,
        b"HTTP/1.1 404 Not Found\r\nDate: Thu, 01 Jan 1970 00:00:00 GMT\r\nContent-Length: 0\r\n\r\n",
    ),
    (b"GET /x HTTP/1.1\r\n", 0, b""),
];

#[test]
fn requests_are_answered(rt: HostRuntime) -> Result<(), Fail> {
    for (text, count, wanted) in REQUESTS {
        assert!(rt; is_answered(rt.alloc(), text, count, wanted)?);
    }
    Ok(())
}

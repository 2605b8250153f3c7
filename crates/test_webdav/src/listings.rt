use dav_listing::read_listing;
use jop_base::{Bytes, Dir};
use std::alloc::{AllocError, Global};
use std::test::Fail;

/// The folder `/locks/` with one lock of second 9, as servers write it that were asked for two properties.
const NGINX: &[u8] = b"<?xml version=\"1.0\" encoding=\"utf-8\" ?>\n\
<D:multistatus xmlns:D=\"DAV:\">\n<D:response>\n<D:href>/locks/</D:href>\n<D:propstat>\n<D:prop>\n\
<D:getlastmodified>Thu, 01 Jan 1970 00:00:09 GMT</D:getlastmodified>\n\
<D:resourcetype><D:collection/></D:resourcetype>\n</D:prop>\n<D:status>HTTP/1.1 200 OK</D:status>\n\
</D:propstat>\n</D:response>\n<D:response>\n\
<D:href>/locks/1_3_11111111111111111111111111111111.json</D:href>\n<D:propstat>\n<D:prop>\n\
<D:getlastmodified>Thu, 01 Jan 1970 00:00:09 GMT</D:getlastmodified>\n\
<D:resourcetype></D:resourcetype>\n</D:prop>\n<D:status>HTTP/1.1 200 OK</D:status>\n\
</D:propstat>\n</D:response>\n</D:multistatus>\n";

const APACHE: &[u8] = b"<?xml version=\"1.0\" encoding=\"utf-8\"?>\n\
<D:multistatus xmlns:D=\"DAV:\" xmlns:ns0=\"DAV:\">\n\
<D:response xmlns:lp1=\"DAV:\" xmlns:lp2=\"http://apache.org/dav/props/\">\n\
<D:href>/locks/</D:href>\n<D:propstat>\n<D:prop>\n\
<lp1:getlastmodified>Thu, 01 Jan 1970 00:00:09 GMT</lp1:getlastmodified>\n\
<lp1:resourcetype><D:collection/></lp1:resourcetype>\n</D:prop>\n\
<D:status>HTTP/1.1 200 OK</D:status>\n</D:propstat>\n</D:response>\n\
<D:response xmlns:lp1=\"DAV:\" xmlns:lp2=\"http://apache.org/dav/props/\">\n\
<D:href>/locks/1_3_11111111111111111111111111111111.json</D:href>\n<D:propstat>\n<D:prop>\n\
<lp1:getlastmodified>Thu, 01 Jan 1970 00:00:09 GMT</lp1:getlastmodified>\n<lp1:resourcetype/>\n\
</D:prop>\n<D:status>HTTP/1.1 200 OK</D:status>\n</D:propstat>\n</D:response>\n\
</D:multistatus>\n";

const LIGHTTPD: &[u8] = b"<?xml version=\"1.0\" encoding=\"utf-8\"?>\n\
<D:multistatus xmlns:D=\"DAV:\" xmlns:ns0=\"urn:uuid:c2f41010-65b3-11d1-a29f-00aa00c14882/\">\n\
<D:response>\n<D:href>/locks/</D:href>\n<D:propstat>\n<D:prop>\n\
<D:getlastmodified ns0:dt=\"dateTime.rfc1123\">Thu, 01 Jan 1970 00:00:09 GMT</D:getlastmodified>\
<D:resourcetype><D:collection/></D:resourcetype></D:prop>\n<D:status>HTTP/1.1 200 OK</D:status>\n\
</D:propstat>\n</D:response>\n<D:response>\n\
<D:href>/locks/1_3_11111111111111111111111111111111.json</D:href>\n<D:propstat>\n<D:prop>\n\
<D:getlastmodified ns0:dt=\"dateTime.rfc1123\">Thu, 01 Jan 1970 00:00:09 GMT</D:getlastmodified>\
<D:resourcetype/></D:prop>\n<D:status>HTTP/1.1 200 OK</D:status>\n</D:propstat>\n</D:response>\n\
</D:multistatus>\n";

const SABRE: &[u8] = b"<?xml version=\"1.0\"?>\n\
<d:multistatus xmlns:d=\"DAV:\" xmlns:s=\"http://sabredav.org/ns\">\n\
<d:response><d:href>/locks/</d:href><d:propstat><d:prop>\
<d:getlastmodified>Thu, 01 Jan 1970 00:00:09 GMT</d:getlastmodified>\
<d:resourcetype><d:collection/></d:resourcetype></d:prop><d:status>HTTP/1.1 200 OK</d:status>\
</d:propstat></d:response>\
<d:response><d:href>/locks/1_3_11111111111111111111111111111111.json</d:href><d:propstat><d:prop>\
<d:getlastmodified>Thu, 01 Jan 1970 00:00:09 GMT</d:getlastmodified><d:resourcetype/></d:prop>\
<d:status>HTTP/1.1 200 OK</d:status></d:propstat></d:response></d:multistatus>";

const RCLONE: &[u8] = b"<?xml version=\"1.0\" encoding=\"UTF-8\"?>\
<D:multistatus xmlns:D=\"DAV:\"><D:response><D:href>/locks/</D:href><D:propstat><D:prop>\
<D:getlastmodified>Thu, 01 Jan 1970 00:00:09 GMT</D:getlastmodified>\
<D:resourcetype><D:collection xmlns:D=\"DAV:\"/></D:resourcetype></D:prop>\
<D:status>HTTP/1.1 200 OK</D:status></D:propstat></D:response>\
<D:response><D:href>/locks/1_3_11111111111111111111111111111111.json</D:href><D:propstat><D:prop>\
<D:getlastmodified>Thu, 01 Jan 1970 00:00:09 GMT</D:getlastmodified>\
<D:resourcetype></D:resourcetype></D:prop><D:status>HTTP/1.1 200 OK</D:status></D:propstat>\
</D:response></D:multistatus>";

/// The same with properties that nobody asked for, one of which holds elements of the names that matter, and with one
/// that isn't there.
const MORE: &[u8] = b"<multistatus xmlns=\"DAV:\"><response><href>/locks</href><propstat><prop>\
<displayname>a &lt;b&gt;&#46;</displayname><resourcetype><collection/></resourcetype></prop>\
<status>HTTP/1.1 200 OK</status></propstat></response>\
<response><href>/locks/1_3_11111111111111111111111111111111.json</href><propstat><prop>\
<supportedlock><lockentry><lockscope><exclusive/></lockscope><response><href>/x</href></response>\
</lockentry></supportedlock><resourcetype  /><getlastmodified\n>Thu, 01 Jan 1970 00:00:09 GMT\
</getlastmodified ></prop><status>HTTP/1.1 200 OK</status></propstat><propstat><prop>\
<quota-used-bytes/><getlastmodified/></prop><status>HTTP/1.1 404 Not Found</status></propstat>\
</response></multistatus>";

const SERVERS: [&[u8]; 6] = [NGINX, APACHE, LIGHTTPD, SABRE, RCLONE, MORE];

/// How many files a body lists of `/locks/`, and the stamp of the first. None if it is no listing.
fn listed(alloc: Global, folder: &[u8], body: &[u8]) -> Result<Option<(usize, u64)>, AllocError> {
    let mut path = Bytes::new(alloc);
    path.append(folder)?;
    match read_listing(alloc, Dir::Locks, path, body)? {
        None => Ok(None),
        Some(entries) => match entries.as_slice() {
            [] => Ok(Some((0, 0))),
            [first, ..] => Ok(Some((entries.len(), first.stamp))),
        },
    }
}

fn all_are_read(alloc: Global) -> Result<bool, AllocError> {
    for body in &SERVERS {
        if listed(alloc, b"/locks/", body)? != Some((1, 9_000)) {
            return Ok(false);
        }
    }
    Ok(true)
}

#[test]
fn listings_of_servers_are_read(rt: HostRuntime) -> Result<(), Fail> {
    assert!(rt; all_are_read(rt.alloc())?);
    Ok(())
}

/// Whether a listing that is cut before its last byte is none, at each place.
fn cuts_are_none(alloc: Global) -> Result<bool, AllocError> {
    for cut in 0..SABRE.len() {
        if listed(alloc, b"/locks/", &SABRE[..cut])?.is_some() {
            return Ok(false);
        }
    }
    Ok(true)
}

#[test]
fn a_cut_listing_is_none(rt: HostRuntime) -> Result<(), Fail> {
    assert!(rt; cuts_are_none(rt.alloc())?);
    Ok(())
}

const START: &[u8] = b"<multistatus xmlns='DAV:'><response><href>/locks/</href><propstat><prop>\
<resourcetype><collection/></resourcetype></prop><status>HTTP/1.1 200 OK</status></propstat>\
</response><response><href>";

const GOOD: &[u8] =
    b"<propstat><prop><getlastmodified>Thu, 01 Jan 1970 00:00:09 GMT</getlastmodified>\
<resourcetype/></prop><status>HTTP/1.1 200 OK</status></propstat>";

const NO_DATE: &[u8] =
    b"<propstat><prop><resourcetype/></prop><status>HTTP/1.1 200 OK</status></propstat>";

const NO_TYPE: &[u8] =
    b"<propstat><prop><getlastmodified>Thu, 01 Jan 1970 00:00:09 GMT</getlastmodified></prop>\
<status>HTTP/1.1 200 OK</status></propstat>";

const DATE_IS_ABSENT: &[u8] = b"<propstat><prop><resourcetype/></prop>\
<status>HTTP/1.1 200 OK</status></propstat>\
<propstat><prop><getlastmodified>Thu, 01 Jan 1970 00:00:09 GMT</getlastmodified></prop>\
<status>HTTP/1.1 404 Not Found</status></propstat>";

const FOLDER: &[u8] = b"<propstat><prop><resourcetype><collection/></resourcetype></prop>\
<status>HTTP/1.1 200 OK</status></propstat>";

const FORBIDDEN: &[u8] = b"<status>HTTP/1.1 403 Forbidden</status>";

const LOCK: &[u8] = b"/locks/1_3_11111111111111111111111111111111.json";

const NONE: Option<(usize, u64)> = None;

const EMPTY: Option<(usize, u64)> = Some((0, 0));

const ONE: Option<(usize, u64)> = Some((1, 9_000));

/// What a resource beside the folder itself is called, what is said of it, and what the listing comes to.
const RESOURCES: [(&[u8], &[u8], Option<(usize, u64)>); 22] = [
    (LOCK, GOOD, ONE),
    (
        b"http://other:81/locks/1%5F3_1111111111111111111111111111111%31.json",
        GOOD,
        ONE,
    ),
    (b"/locks/a&amp;b", GOOD, EMPTY),
    (b"/locks/%C3%A4.txt", NO_DATE, EMPTY),
    (b"/locks/folder/", FOLDER, EMPTY),
    // Elsewhere, deeper, relative, with a query, with another entity.
    (
        b"/lock/1_3_11111111111111111111111111111111.json",
        GOOD,
        NONE,
    ),
    (b"/locks/a/b", GOOD, NONE),
    (b"1_3_11111111111111111111111111111111.json", GOOD, NONE),
    (b"//other/locks/a", GOOD, NONE),
    (
        b"/locks/1_3_11111111111111111111111111111111.json?x=1",
        GOOD,
        NONE,
    ),
    (b"/locks/a&#46;b", GOOD, NONE),
    // In upper case, and with escapes of escapes.
    (
        b"/locks/1_3_1111111111111111111111111111111A.JSON",
        GOOD,
        NONE,
    ),
    (
        b"/locks/1%255F3_11111111111111111111111111111111.json",
        GOOD,
        NONE,
    ),
    // A file of which something isn't told, or that is told to be a folder.
    (LOCK, NO_DATE, NONE),
    (LOCK, NO_TYPE, NONE),
    (LOCK, DATE_IS_ABSENT, NONE),
    (LOCK, FOLDER, NONE),
    (LOCK, FORBIDDEN, NONE),
    (LOCK, b"", NONE),
    (
        b"/locks/1_3_11111111111111111111111111111111.json/",
        FOLDER,
        NONE,
    ),
    // The folder itself for the second time, and told to be none.
    (b"/locks", FOLDER, NONE),
    (b"/locks/", GOOD, NONE),
];

fn body_with(alloc: Global, href: &[u8], said: &[u8]) -> Result<Bytes, AllocError> {
    let mut body = Bytes::new(alloc);
    body.append(START)?;
    body.append(href)?;
    body.append(b"</href>")?;
    body.append(said)?;
    body.append(b"</response></multistatus>")?;
    Ok(body)
}

/// How many of the resources come to what they should.
fn resources_as_wanted(alloc: Global) -> Result<usize, AllocError> {
    let mut count: usize = 0;
    for (href, said, wanted) in &RESOURCES {
        let body = body_with(alloc, href, said)?;
        if listed(alloc, b"/locks/", body.as_slice())? == *wanted {
            count = count.saturating_add(1);
        }
    }
    Ok(count)
}

#[test]
fn no_file_is_left_out(rt: HostRuntime) -> Result<(), Fail> {
    assert!(rt; resources_as_wanted(rt.alloc())? == RESOURCES.len());
    Ok(())
}

#[test]
fn another_folder_is_none(rt: HostRuntime) -> Result<(), Fail> {
    let alloc = rt.alloc();
    assert!(rt; listed(alloc, b"/locks/", b"<multistatus></multistatus>")?.is_none());
    assert!(rt; listed(alloc, b"/dav/locks/", NGINX)?.is_none());
    Ok(())
}

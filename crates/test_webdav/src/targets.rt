ghost use Rattle.std.specs.Prelude.{IsTrue};
ghost use Rattle.jop_target.specs.Replies.{IsCallable};

use crate::calls::{bytes, name_of, site};
use dav_link::MemLink;
use jop_base::{Bytes, Dir, LockName, Path};
use jop_outside::MemSink;
use jop_target::{Call, Target};
use std::alloc::{AllocError, Global};
use std::test::Fail;
use target_webdav::WebDavTarget;

/// What is asked.
#[derive(Clone, Copy)]
enum Asked {
    Root,
    Locks,
    Info,
    PutLock,
}

const LOCK_NAME: &[u8] = b"1_3_11111111111111111111111111111111.json";

fn call_of(alloc: Global, asked: Asked) -> Call {
    match asked {
        Asked::Root => Call::List(Dir::Root),
        Asked::Locks => Call::List(Dir::Locks),
        Asked::Info => Call::Get(Path::Info),
        Asked::PutLock => match LockName::read(LOCK_NAME) {
            Some(name) => Call::Put(Path::Lock(name), Bytes::new(alloc)),
            None => Call::List(Dir::Temp),
        },
    }
}

/// Whether a call may be made.
fn is_callable(call: &Call, blob: &Bytes) -> bool
    ensures { IsTrue result → IsCallable call.now blob.now }
{
    match call {
        Call::Get(path) | Call::Put(path, _) => !matches!(path, Path::Blob(_)),
        Call::PutBlob { len, .. } => *len == blob.len() as u64,
        _ => true,
    }
}

/// A listing of `/dav/locks/` with one lock, written in a second behind 0:00.
const LOCKS: [&[u8]; 2] = [
    b"HTTP/1.1 207 Multi-Status\r\nDate: Thu, 01 Jan 1970 00:00:10 GMT\r\n\r\n<multistatus>\
<response><href>/dav/locks/</href><propstat><prop><resourcetype><collection/></resourcetype></prop>\
<status>HTTP/1.1 200 OK</status></propstat></response>\
<response><href>/dav/locks/1_3_11111111111111111111111111111111.json</href><propstat><prop>\
<resourcetype/><getlastmodified>Thu, 01 Jan 1970 00:",
    b" GMT</getlastmodified></prop><status>HTTP/1.1 200 OK</status></propstat></response></multistatus>",
];

const EMPTY: &[u8] = b"HTTP/1.1 207 Multi-Status\r\nDate: Thu, 01 Jan 1970 00:00:10 GMT\r\n\r\n\
<multistatus><response><href>/dav/</href><propstat><prop><resourcetype><collection/></resourcetype>\
</prop><status>HTTP/1.1 200 OK</status></propstat></response></multistatus>";

const INFO: &[u8] = b"HTTP/1.1 200 OK\r\nDate: Thu, 01 Jan 1970 00:00:10 GMT\r\n\
Content-Length: 2\r\n\r\n{}";

const LAST: &[u8] = b"HTTP/1.1 200 OK\r\nDate: Thu, 01 Jan 1970 00:00:10 GMT\r\n\
Connection: close\r\nContent-Length: 2\r\n\r\n{}";

const PUT: &[u8] = b"HTTP/1.1 201 Created\r\nDate: Thu, 01 Jan 1970 00:00:10 GMT\r\n\
Content-Length: 0\r\n\r\n";

const ABSENT: &[u8] = b"HTTP/1.1 404 Not Found\r\nDate: Thu, 01 Jan 1970 00:00:10 GMT\r\n\
Content-Length: 0\r\n\r\n";

const LONG: &[u8] = b"HTTP/1.1 200 OK\r\nDate: Thu, 01 Jan 1970 00:00:10 GMT\r\n\
Content-Length: 16777217\r\n\r\n{}";

/// What is asked of one target, step by step, what comes (of a listing of locks the minute and second of the lock), the
/// reply, and how often the link was opened for it.
const STEPS: [(Asked, &[u8], &str, u64); 18] = [
    (Asked::Root, EMPTY, "listed", 1),
    (Asked::Info, ABSENT, "absent", 1),
    (Asked::Info, LAST, "got", 0),
    (Asked::Info, INFO, "got", 1),
    (Asked::Info, INFO, "got", 0),
    // `info.json` was there.
    (Asked::Root, EMPTY, "failed", 0),
    (Asked::Info, b"", "failed", 1),
    (Asked::PutLock, PUT, "done", 1),
    // A minute past the listing, and more.
    (Asked::Locks, b"01:09", "listed", 0),
    (Asked::Locks, b"01:10", "failed", 1),
    (Asked::PutLock, PUT, "done", 1),
    // Not before what was told ahead of the put, and before.
    (Asked::Locks, b"00:09", "listed", 0),
    (Asked::Locks, b"00:08", "failed", 1),
    (Asked::Locks, b"00:09", "listed", 1),
    // No folder is absent.
    (Asked::Root, ABSENT, "failed", 1),
    // Past its limit, and told by the head alone.
    (Asked::Info, LONG, "too large", 1),
    (Asked::Info, INFO, "got", 1),
    (Asked::Info, INFO, "got", 0),
];

fn answer(alloc: Global, asked: Asked, text: &[u8]) -> Result<MemLink, AllocError> {
    let mut whole = bytes(alloc, b"")?;
    match asked {
        Asked::Locks => {
            whole.append(LOCKS[0])?;
            whole.append(text)?;
            whole.append(LOCKS[1])?;
        }
        _ => whole.append(text)?,
    }
    Ok(MemLink::new(alloc, whole))
}

type InMemory = WebDavTarget<MemLink, MemSink>;

fn reply_to(alloc: Global, target: &mut InMemory, asked: Asked) -> Result<&'static str, Fail> {
    let call = call_of(alloc, asked);
    let mut blob = Bytes::new(alloc);
    if !is_callable(&call, &blob) {
        return Err(Fail::new("no call to make"));
    }
    let reply = target.call(alloc, &call, &mut blob)?;
    Ok(name_of(&reply))
}

/// How many steps come to what they should.
fn steps_as_wanted(alloc: Global, target: &mut InMemory) -> Result<usize, Fail> {
    let mut count: usize = 0;
    for (asked, text, wanted, opened) in &STEPS {
        target.link = answer(alloc, *asked, text)?;
        let told = reply_to(alloc, target, *asked)?;
        if told == *wanted && target.link.opened() == *opened {
            count = count.saturating_add(1);
        }
    }
    Ok(count)
}

fn walked(alloc: Global) -> Result<usize, Fail> {
    let link = MemLink::new(alloc, Bytes::new(alloc));
    let mut target = WebDavTarget::new(link, site(alloc, true)?, MemSink::new(alloc));
    steps_as_wanted(alloc, &mut target)
}

#[test]
fn a_target_remembers_what_it_was_told(rt: HostRuntime) -> Result<(), Fail> {
    assert!(rt; walked(rt.alloc())? == STEPS.len());
    Ok(())
}

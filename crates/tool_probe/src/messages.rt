//! The messages of WebDAV beside other programs.

ghost use Rattle.std.specs.Prelude.{List, ℕ};
ghost use Rattle.jop_target.specs.Replies.{IsCallable};

use dav_wire::{
    ReadRequest, ReadResponse, Request, read_request, read_response, request_missing,
    write_refusal, write_request, write_response,
};
use jop_base::{Bytes, Dir, Id, Path, Text};
use jop_target::{Call, MemTarget, Reply, Target};
use std::io::{self, Read, Write};

/// The most requests that are read.
const MOST: usize = 1_000;

pub(crate) fn input(rt: &HostRuntime) -> io::Result<Vec<u8>> {
    let mut bytes = Vec::new(rt.alloc());
    rt.stdin().read_to_end(&mut bytes)?;
    Ok(bytes)
}

/// Prints a line for each request that stands on standard input.
pub(crate) fn requests(rt: &HostRuntime) -> anyhow::Result<()> {
    let bytes = input(rt)?;
    let mut rest = bytes.as_slice();
    for _ in 0..MOST {
        if rest.is_empty() {
            break;
        }
        let used = request(rt, rest)?;
        rest = rest.get(used..).unwrap_or(b"");
    }
    Ok(())
}

/// Prints what the bytes begin with, and gives how many of them that takes.
pub(crate) fn request(rt: &HostRuntime, bytes: &[u8]) -> anyhow::Result<usize> {
    match read_request(rt.alloc(), bytes)? {
        ReadRequest::Whole { request, used } => {
            tell(rt, &request, used)?;
            Ok(used as usize)
        }
        ReadRequest::More => {
            println!(rt; "more, {} missing", request_missing(bytes).unwrap_or(0))?;
            Ok(bytes.len())
        }
        ReadRequest::Bad(status) => {
            println!(rt; "bad {status}")?;
            Ok(bytes.len())
        }
    }
}

fn tell(rt: &HostRuntime, request: &Request, used: u64) -> anyhow::Result<()> {
    let end = if request.close { ", then closes" } else { "" };
    match &request.call {
        None => println!(rt; "refused {}, {used} bytes{end}", request.refusal)?,
        Some(call) => {
            let alloc = rt.alloc();
            let text = write_request(alloc, &Text::of(alloc, "h")?, call, &request.blob)?;
            println!(rt; "{}, {used} bytes{end}", first_line(text.as_slice()))?;
        }
    }
    Ok(())
}

/// The text up to its first carriage return.
fn first_line(text: &[u8]) -> &str {
    let line = match text.iter().position(|byte| *byte == b'\r') {
        Some(end) => text.get(..end).unwrap_or(text),
        None => text,
    };
    std::str::from_utf8(line).unwrap_or("")
}

/// Makes a call on the target, and writes its response.
fn answer(
    rt: &HostRuntime,
    target: &mut MemTarget,
    call: &Call,
    blob: &mut Bytes,
) -> anyhow::Result<()>
    requires { IsCallable call.now blob.old }
{
    let alloc = rt.alloc();
    let reply = target.call(alloc, call, blob)?;
    let text = write_response(alloc, call, &reply, blob, 0)?;
    rt.stdout().write_all(text.as_slice())?;
    Ok(())
}

/// Makes a call without a blob.
fn answer_plain(rt: &HostRuntime, target: &mut MemTarget, call: &Call) -> anyhow::Result<()>
    requires { (blob : List ℕ) → IsCallable call.now blob }
{
    answer(rt, target, call, &mut Bytes::new(rt.alloc()))
}

/// Writes a response of each kind, one after another.
pub(crate) fn responses(rt: &HostRuntime) -> anyhow::Result<()> {
    let mut target = MemTarget::new(rt.alloc(), 0, 1_000);
    calls(rt, &mut target)?;
    refusals(rt)
}

fn put_info(rt: &HostRuntime, target: &mut MemTarget) -> anyhow::Result<()> {
    let content = Bytes::from_vec(b"content".to_vec(rt.alloc())?);
    answer_plain(rt, target, &Call::Put(Path::Info, content))
}

/// A call of each kind.
fn calls(rt: &HostRuntime, target: &mut MemTarget) -> anyhow::Result<()> {
    answer_plain(rt, target, &Call::MakeDir(Dir::Locks))?;
    put_info(rt, target)?;
    answer_plain(rt, target, &Call::List(Dir::Root))?;
    answer_plain(rt, target, &Call::Get(Path::Info))?;
    answer_plain(rt, target, &Call::Delete(Path::Info))?;
    answer_plain(rt, target, &Call::Get(Path::Info))?;
    match Id::read(b"11111111111111111111111111111111") {
        Some(id) => blobs(rt, target, id),
        None => Ok(()),
    }
}

fn blobs(rt: &HostRuntime, target: &mut MemTarget, id: Id) -> anyhow::Result<()> {
    let mut blob = Bytes::from_vec(b"blob".to_vec(rt.alloc())?);
    let len = blob.len() as u64;
    answer(rt, target, &Call::PutBlob { id, len }, &mut blob)?;
    answer(rt, target, &Call::GetBlob(id), &mut blob)
}

fn refusals(rt: &HostRuntime) -> anyhow::Result<()> {
    for status in [400, 403, 404, 405, 413, 500] {
        let text = write_refusal(rt.alloc(), status, 1_000)?;
        rt.stdout().write_all(text.as_slice())?;
    }
    Ok(())
}

/// Reads the response to a listing of the root, and prints how many files it has.
pub(crate) fn listing(rt: &HostRuntime) -> anyhow::Result<()> {
    let bytes = input(rt)?;
    listing_in(rt, bytes.as_slice())
}

/// The same of a response that is given.
pub(crate) fn listing_in(rt: &HostRuntime, bytes: &[u8]) -> anyhow::Result<()> {
    match read_response(rt.alloc(), &Call::List(Dir::Root), bytes)? {
        ReadResponse::Whole {
            reply,
            blob: _blob,
            used: _,
        } => match &reply {
            Reply::Listed(listing) => println!(rt; "listed {}", listing.entries.len())?,
            _ => println!(rt; "another reply")?,
        },
        ReadResponse::More => println!(rt; "more")?,
        ReadResponse::Bad => println!(rt; "bad")?,
    }
    Ok(())
}

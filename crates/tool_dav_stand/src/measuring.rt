ghost use Rattle.std.specs.Prelude.{List, ℕ};
ghost use Rattle.jop_target.specs.Replies.{IsCallable};

use anyhow::Context;
use dav_address::{SiteName, read_site};
use dav_tcp::{SteadyClock, TcpLink};
use jop_base::{Bytes, Copied, Dir, Id, Path, Text};
use jop_outside::MemSink;
use jop_target::{Call, Reply, Target};
use std::alloc::{AllocError, Global};
use std::time::Instant;
use target_dav::DavTarget;
use target_webdav::WebDavTarget;
use webdav_calls::Site;

/// How many bytes a file has.
const LENGTH: usize = 1_024;

const FIRST: &[u8] = b"00000000000000000000000000000001";

/// What is done over one connection to a server.
#[derive(Clone, Copy, Debug)]
pub enum Measured {
    /// So many files are put, and then got.
    Calls(u64),
    /// The root is listed.
    List,
    /// A blob of so many bytes is put.
    Put(u64),
    /// It is got.
    Get,
}

/// Does it, and prints how many milliseconds that took.
pub fn measure(rt: &HostRuntime, address: &str, what: Measured) -> anyhow::Result<()> {
    let alloc = rt.alloc();
    let clock = SteadyClock::new(rt.clone()?);
    let link = TcpLink::new(rt.clone()?, clock, Text::of(alloc, address)?);
    let mut target = DavTarget::new(link, Text::of(alloc, address)?);
    measure_on(rt, &mut target, what)
}

fn measure_on<T: Target>(rt: &HostRuntime, target: &mut T, what: Measured) -> anyhow::Result<()> {
    match what {
        Measured::Calls(count) => measure_calls(rt, target, count),
        Measured::List => measure_list(rt, target),
        Measured::Put(len) => measure_put(rt, target, len),
        Measured::Get => measure_get(rt, target),
    }
}

/// The same in a folder on a server of another make.
pub fn measure_site(rt: &HostRuntime, url: &str, count: u64) -> anyhow::Result<()> {
    let name = read_site(rt.alloc(), url)?.context("no URL of a folder")?;
    let SiteName {
        host,
        path,
        user: _,
    } = name;
    let clock = SteadyClock::new(rt.clone()?);
    let link = TcpLink::new(rt.clone()?, clock, host.copy(rt.alloc())?);
    let site = Site::open(host.into_bytes(), path.into_bytes());
    let mut target = WebDavTarget::new(link, site, MemSink::new(rt.alloc()));
    measure_calls(rt, &mut target, count)
}

/// Puts so many files, and prints how many milliseconds that took; then gets them.
fn measure_calls<T: Target>(rt: &HostRuntime, target: &mut T, count: u64) -> anyhow::Result<()> {
    let first = Id::read(FIRST).context("no id")?;
    let started = Instant::now(rt)?;
    let failed = put_all(rt.alloc(), target, first, count)?;
    println!(rt;
        "puts: {} ms, {failed} failed",
        started.elapsed(rt)?.as_millis()
    )?;

    let started = Instant::now(rt)?;
    let failed = get_all(rt.alloc(), target, first, count)?;
    println!(rt;
        "gets: {} ms, {failed} failed",
        started.elapsed(rt)?.as_millis()
    )?;
    Ok(())
}

/// Puts so many files, and gives how many calls failed.
fn put_all<T: Target>(
    alloc: Global,
    target: &mut T,
    first: Id,
    count: u64,
) -> Result<u64, AllocError> {
    let content = Bytes::from_vec(vec![in alloc; b'x'; LENGTH]?);
    let mut id = first;
    let mut failed: u64 = 0;
    for _ in 0..count {
        let call = Call::Put(Path::Item(id), content.copy(alloc)?);
        failed = failed.saturating_add(failures(alloc, target, &call)?);
        id = id.after();
    }
    Ok(failed)
}

/// Gets them.
fn get_all<T: Target>(
    alloc: Global,
    target: &mut T,
    first: Id,
    count: u64,
) -> Result<u64, AllocError> {
    let mut id = first;
    let mut failed: u64 = 0;
    for _ in 0..count {
        failed = failed.saturating_add(failures(alloc, target, &Call::Get(Path::Item(id)))?);
        id = id.after();
    }
    Ok(failed)
}

/// Makes a call, and gives how often it failed or found nothing.
fn failures<T: Target>(alloc: Global, target: &mut T, call: &Call) -> Result<u64, AllocError>
    requires { (blob : List ℕ) → IsCallable call.now blob }
{
    match target.call(alloc, call, &mut Bytes::new(alloc))? {
        Reply::Done { .. } | Reply::Got { .. } => Ok(0),
        _ => Ok(1),
    }
}

/// Lists the root, and prints how many milliseconds that took and how many files there are.
fn measure_list<T: Target>(rt: &HostRuntime, target: &mut T) -> anyhow::Result<()> {
    let started = Instant::now(rt)?;
    let files = count_files(rt.alloc(), target)?;
    let took = started.elapsed(rt)?.as_millis();
    Ok(println!(rt; "list: {took} ms, {files} files")?)
}

/// How many files the root has; 0 if it wasn't listed.
fn count_files<T: Target>(alloc: Global, target: &mut T) -> Result<usize, AllocError> {
    match target.call(alloc, &Call::List(Dir::Root), &mut Bytes::new(alloc))? {
        Reply::Listed(listing) => Ok(listing.entries.len()),
        _ => Ok(0),
    }
}

/// Puts a blob of so many bytes, and prints how many milliseconds that took.
fn measure_put<T: Target>(rt: &HostRuntime, target: &mut T, len: u64) -> anyhow::Result<()> {
    let id = Id::read(FIRST).context("no id")?;
    let mut blob = Bytes::from_vec(vec![in rt.alloc(); b'x'; len as usize]?);
    let started = Instant::now(rt)?;
    let reply = put_blob(rt.alloc(), target, id, &mut blob)?;
    let took = started.elapsed(rt)?.as_millis();
    Ok(println!(rt; "put: {took} ms, {reply}")?)
}

fn put_blob<T: Target>(
    alloc: Global,
    target: &mut T,
    id: Id,
    blob: &mut Bytes,
) -> Result<Reply, AllocError> {
    let len = blob.len() as u64;
    target.call(alloc, &Call::PutBlob { id, len }, blob)
}

/// Gets it, and prints how many milliseconds that took.
fn measure_get<T: Target>(rt: &HostRuntime, target: &mut T) -> anyhow::Result<()> {
    let id = Id::read(FIRST).context("no id")?;
    let mut blob = Bytes::new(rt.alloc());
    let started = Instant::now(rt)?;
    let reply = target.call(rt.alloc(), &Call::GetBlob(id), &mut blob)?;
    let took = started.elapsed(rt)?.as_millis();
    Ok(println!(rt; "get: {took} ms, {reply}")?)
}

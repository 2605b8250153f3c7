ghost use Rattle.std.specs.Prelude.{◌≡◌, ◌+◌, ◌-◌, ◌^◌, ◌<◌, IfOk};
ghost use Rattle.dav_parts.specs.Targets.{method_of};
ghost use Rattle.http1.specs.Head.{pairs};
ghost use Rattle.webdav_calls.specs.Asking.{AsksSite, call_content, is_listing_call, name_of_call, site_fields, site_target, two_properties};

use crate::site::Site;
use dav_link::{Link, LinkErr};
use dav_parts::Method;
use http_exchange::{Received, exchange};
use http1::Header;
use jop_base::{Bytes, Path};
use jop_target::Call;
use std::alloc::{AllocError, Global};

fn method_of(call: &Call) -> Method
    ensures { result ≡ method_of call.now }
{
    match call {
        Call::List(_) => Method::List,
        Call::Get(_) | Call::GetBlob(_) => Method::Get,
        Call::Put(..) | Call::PutBlob { .. } => Method::Put,
        Call::Delete(_) => Method::Delete,
        Call::MakeDir(_) => Method::MakeDir,
    }
}

/// The name below the target's folder of what a call speaks of.
fn name_of_call(alloc: Global, call: &Call) -> Result<Bytes, AllocError>
    ensures { IfOk result (λ name. name ≡ name_of_call call.now) }
{
    let mut name = Bytes::new(alloc);
    match call {
        Call::List(dir) | Call::MakeDir(dir) => name.append(dir.prefix().as_bytes())?,
        Call::Get(path) => name.append(path.text(alloc)?.as_slice())?,
        Call::Put(path, _) => name.append(path.text(alloc)?.as_slice())?,
        Call::Delete(path) => name.append(path.text(alloc)?.as_slice())?,
        Call::GetBlob(id) => name.append(Path::Blob(*id).text(alloc)?.as_slice())?,
        Call::PutBlob { id, .. } => name.append(Path::Blob(*id).text(alloc)?.as_slice())?,
    }
    Ok(name)
}

fn site_target(alloc: Global, site: &Site, call: &Call) -> Result<Bytes, AllocError>
    ensures { IfOk result (λ target. target ≡ site_target site.now call.now) }
{
    let name = name_of_call(alloc, call)?;
    let mut target = Bytes::new(alloc);
    target.append(site.path())?;
    target.append(name.as_slice())?;
    Ok(target)
}

#[tactic(auto, unfolding(crate::specs::Asking::two_properties))]
fn two_properties() -> &'static [u8]
    ensures { result.now ≡ two_properties }
{
    b"<?xml version=\"1.0\" encoding=\"utf-8\"?><d:propfind xmlns:d=\"DAV:\"><d:prop>\
      <d:getlastmodified/><d:resourcetype/></d:prop></d:propfind>"
}

fn call_content<'a>(call: &'a Call, blob: &'a Bytes) -> &'a [u8]
    ensures { result.now ≡ call_content call.now blob.now }
{
    match call {
        Call::List(_) => two_properties(),
        Call::Put(_, content) => content.as_slice(),
        Call::PutBlob { .. } => blob.as_slice(),
        _ => &[],
    }
}

fn is_listing_call(call: &Call) -> bool
    ensures { result ≡ is_listing_call call.now }
{
    matches!(call, Call::List(_))
}

/// Sends the request of a call with these fields, which are those of the site and the call.
fn ask_with<L: Link>(
    alloc: Global,
    link: &mut L,
    site: &Site,
    call: &Call,
    blob: &Bytes,
    headers: &[Header<'_>],
    limit: usize,
    most: u64,
) -> Result<Received, LinkErr>
    requires fields { pairs headers.now ≡ site_fields site.now (is_listing_call call.now) }
    requires bounded { limit + most < 2 ^ 64 - 1 }
    ensures { AsksSite site.now call.now blob.now (L.state link.old) limit most result
        (L.state link.new) }
{
    let target = site_target(alloc, site, call)?;
    let method = method_of(call).as_str().as_bytes();
    let content = call_content(call, blob);
    let received = exchange(
        alloc,
        link,
        method,
        target.as_slice(),
        headers,
        content,
        limit,
        most,
    )?;
    Ok(received)
}

/// Sends a call to a site, and reads the answer. The bytes of a blob that is put travel beside the call.
pub fn ask<L: Link>(
    alloc: Global,
    link: &mut L,
    site: &Site,
    call: &Call,
    blob: &Bytes,
    limit: usize,
    most: u64,
) -> Result<Received, LinkErr>
    requires bounded { limit + most < 2 ^ 64 - 1 }
    ensures { AsksSite site.now call.now blob.now (L.state link.old) limit most result
        (L.state link.new) }
{
    let host = header(b"Host", site.host());
    let coding = header(b"Accept-Encoding", b"identity");
    let cache = header(b"Cache-Control", b"no-cache");
    let depth = header(b"Depth", b"1");
    let kind = header(b"Content-Type", b"application/xml");
    match (is_listing_call(call), site.user()) {
        (true, None) => {
            let fields = [host, coding, cache, depth, kind];
            ask_with(alloc, link, site, call, blob, &fields, limit, most)
        }
        (true, Some(credentials)) => {
            let user = header(b"Authorization", credentials);
            let fields = [host, coding, cache, depth, kind, user];
            ask_with(alloc, link, site, call, blob, &fields, limit, most)
        }
        (false, None) => {
            let fields = [host, coding, cache];
            ask_with(alloc, link, site, call, blob, &fields, limit, most)
        }
        (false, Some(credentials)) => {
            let user = header(b"Authorization", credentials);
            let fields = [host, coding, cache, user];
            ask_with(alloc, link, site, call, blob, &fields, limit, most)
        }
    }
}

fn header<'a>(name: &'a [u8], value: &'a [u8]) -> Header<'a>
    ensures { (result.name.now ≡ name.now) × (result.value.now ≡ value.now) }
{
    Header { name, value }
}

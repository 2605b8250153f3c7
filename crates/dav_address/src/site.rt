ghost use Rattle.std.specs.Prelude.{◌≡◌, ◌++◌, codes, decimal, IfOk};
ghost use Rattle.std.specs.Option.{option_copied};
ghost use Rattle.percent_encoding.specs.Percent.{percent_decode as decoded_text};
ghost use Rattle.dav_address.specs.Places.{has_colon, has_good_user, is_in_127, is_loopback, is_of_ipv4, is_site, path_in, place_at, place_by, place_in, place_of, user_in};

use crate::address::{HTTP_PORT, address_text};
use jop_base::{Bytes, Text};
use percent_encoding::percent_decode;
use std::alloc::{AllocError, Global};
use url::{ParseError, Url};

/// Where a WebDAV server holds a target, as a URL names it.
#[derive(Debug, Drop)]
pub struct SiteName {
    /// `host:port`.
    pub host: Text,
    /// The path of the target's folder as it is escaped in a URL, with a slash at both ends.
    pub path: Text,
    /// The user, with the escapes read, if there is one.
    pub user: Option<Bytes>,
}

/// The site that a word names, if the word is a URL of the scheme `http` without a password, a query or a fragment. It
/// is read as browsers read one (the URL Standard). A missing last slash is added to its path, and the port is 80 if
/// the word has none. A user has no colon, and the host is this machine then: `localhost`, an address that begins with
/// 127, or `[::1]`; the password would travel in the clear else.
pub fn read_site(alloc: Global, word: &str) -> Result<Option<SiteName>, AllocError>
    ensures { IfOk result (λ site. site ≡ place_of word.now) }
{
    match Url::parse(alloc, word) {
        Ok(url) => {
            let site = site_in(alloc, &url)?;
            Ok(site)
        }
        Err(ParseError::OutOfMemory) => Err(AllocError),
        // 4 GB or more.
        Err(ParseError::Overflow) => Err(AllocError),
        Err(_) => Ok(None),
    }
}

fn site_in(alloc: Global, url: &Url) -> Result<Option<SiteName>, AllocError>
    ensures { IfOk result (λ site. site ≡ place_in url.now) }
{
    if !is_site(url) {
        return Ok(None);
    }
    site_by(alloc, url, url.host_str())
}

fn site_by(alloc: Global, url: &Url, host: Option<&str>) -> Result<Option<SiteName>, AllocError>
    ensures { IfOk result (λ site. site ≡ place_by url.now (option_copied host.entry)) }
{
    match host {
        None => Ok(None),
        Some(host) => site_at(alloc, url, host),
    }
}

fn site_at(alloc: Global, url: &Url, host: &str) -> Result<Option<SiteName>, AllocError>
    ensures { IfOk result (λ site. site ≡ place_at url.now host.now) }
{
    let user = decoded(alloc, url.username())?;
    if !has_good_user(host, user.as_slice()) {
        return Ok(None);
    }
    let port = url.port().unwrap_or(HTTP_PORT);
    Ok(Some(SiteName {
        host: address_text(alloc, host, port)?,
        path: path_in(alloc, url.path())?,
        user: user_in(user),
    }))
}

/// Whether a URL names a folder on a server, as a user or not.
fn is_site(url: &Url) -> bool
    ensures { result ≡ is_site url.now }
{
    url.scheme() == "http"
        && url.password().is_none()
        && url.query().is_none()
        && url.fragment().is_none()
}

fn decoded(alloc: Global, text: &str) -> Result<Bytes, AllocError>
    ensures { IfOk result (λ bytes. bytes ≡ decoded_text text.now) }
{
    let mut bytes = Vec::new(alloc);
    percent_decode(text.as_bytes()).append_to(&mut bytes)?;
    Ok(Bytes::from_vec(bytes))
}

/// Whether a text has digits and dots alone.
fn is_of_ipv4(text: &[u8]) -> bool
    ensures { result ≡ is_of_ipv4 text.now }
{
    text.iter()
        .all(|byte| *byte == b'.' || byte.is_ascii_digit())
}

/// Whether a host is an address of IPv4 that begins with 127.
fn is_in_127(host: &[u8]) -> bool
    ensures { result ≡ is_in_127 host.now }
{
    host.len() >= 4 && &host[..4] == b"127.".as_slice() && is_of_ipv4(host)
}

/// Whether a host is this machine.
fn is_loopback(host: &str) -> bool
    ensures { result ≡ is_loopback host.now }
{
    host == "localhost" || host == "[::1]" || is_in_127(host.as_bytes())
}

fn has_colon(user: &[u8]) -> bool
    ensures { result ≡ has_colon user.now }
{
    user.iter().any(|byte| *byte == b':')
}

/// Whether there is no user, or one that this machine alone is told.
fn has_good_user(host: &str, user: &[u8]) -> bool
    ensures { result ≡ has_good_user host.now user.now }
{
    user.is_empty() || (is_loopback(host) && !has_colon(user))
}

fn user_in(user: Bytes) -> Option<Bytes>
    ensures { result ≡ user_in user }
{
    if user.as_slice().is_empty() {
        None
    } else {
        Some(user)
    }
}

/// A path with a slash at its end.
fn path_in(alloc: Global, path: &str) -> Result<Text, AllocError>
    ensures { IfOk result (λ text. text ≡ path_in path.now) }
{
    let mut text = Text::of(alloc, path)?;
    if !path.as_bytes().ends_with(b"/") {
        text.append("/")?;
    }
    Ok(text)
}

ghost use Rattle.std.specs.Prelude.{◌≡◌, ◌++◌, IfOk, IfSome, All, codes, decimal};
ghost use Rattle.dav_address.specs.Addresses.{IsVisible, address_in, address_of, is_server};

use jop_base::Text;
use std::alloc::{AllocError, Global};
use url::{ParseError, Url};

/// The port of `http` (RFC 9110, 4.2.1).
pub(crate) const HTTP_PORT: u16 = 80;

/// The `host:port` of the server that a word names, if the word is a URL of the scheme `http` with the path `/`, and
/// without credentials, query or fragment. It is read as browsers read one (the URL Standard): a scheme and a host in
/// capitals, spaces around the word and a missing last slash do no harm. The host is as that standard writes it, an
/// address of IPv6 in brackets; the port is 80 if the word has none.
pub fn read_address(alloc: Global, word: &str) -> Result<Option<Text>, AllocError>
    ensures exact { IfOk result (λ address. address ≡ address_of word.now) }
    // So no word adds a line to the head of a request.
    ensures visible { IfOk result (λ address. IfSome address (All IsVisible)) }
{
    match Url::parse(alloc, word) {
        Ok(url) => {
            let address = address_in(alloc, &url)?;
            Ok(address)
        }
        Err(ParseError::OutOfMemory) => Err(AllocError),
        // 4 GB or more.
        Err(ParseError::Overflow) => Err(AllocError),
        Err(_) => Ok(None),
    }
}

/// The address of the server that a URL names.
fn address_in(alloc: Global, url: &Url) -> Result<Option<Text>, AllocError>
    ensures { IfOk result (λ address. address ≡ address_in url.now) }
{
    if !is_server(url) {
        return Ok(None);
    }
    match url.host_str() {
        None => Ok(None),
        Some(host) => {
            let text = address_text(alloc, host, url.port().unwrap_or(HTTP_PORT))?;
            Ok(Some(text))
        }
    }
}

/// Whether a URL names a server and nothing on it.
fn is_server(url: &Url) -> bool
    ensures { result ≡ is_server url.now }
{
    url.scheme() == "http"
        && url.path() == "/"
        && url.username().is_empty()
        && url.password().is_none()
        && url.query().is_none()
        && url.fragment().is_none()
}

pub(crate) fn address_text(alloc: Global, host: &str, port: u16) -> Result<Text, AllocError>
    ensures { IfOk result (λ text. text ≡ host.now ++ (codes ":" ++ decimal port)) }
{
    let mut text = Text::of(alloc, host)?;
    text.append(":")?;
    text.append(port.to_string(alloc)?.as_str())?;
    Ok(text)
}

ghost use Rattle.std.specs.Prelude.{◌≡◌, ◌++◌, IfOk};
ghost use Rattle.std.specs.Option.{option_copied};
ghost use Rattle.percent_encoding.specs.Percent.{percent_decode as decoded_text};
ghost use Rattle.dav_listing.specs.Hrefs.{escaped_path, folded, from_slash, has_query, path_of, rest_after};

use jop_base::Bytes;
use percent_encoding::percent_decode;
use std::alloc::{AllocError, Global};

/// A text from its first slash on; nothing, if it has none.
fn from_slash(text: &[u8]) -> &[u8]
    ensures { result.now ≡ from_slash text.now }
{
    for place in 0..text.len() {
        if text[place] == b'/' {
            let (_, rest) = text.split_at(place);
            return rest;
        }
    }
    &[]
}

/// Whether a query or a fragment stands in an href.
fn has_query(href: &[u8]) -> bool
    ensures { result ≡ has_query href.now }
{
    href.iter().any(|byte| *byte == b'?' || *byte == b'#')
}

/// What follows the beginning of a text. None if the text begins otherwise.
pub(crate) fn rest_after<'a>(start: &[u8], text: &'a [u8]) -> Option<&'a [u8]>
    ensures { option_copied result ≡ rest_after start.now text.now }
{
    if text.len() < start.len() {
        return None;
    }
    let (beginning, rest) = text.split_at(start.len());
    if beginning == start { Some(rest) } else { None }
}

/// The path with its escapes. None if the href names none.
fn escaped_path(href: &[u8]) -> Option<&[u8]>
    ensures { option_copied result ≡ escaped_path href.now }
{
    if rest_after(b"/", href).is_some() {
        return Some(href);
    }
    if let Some(rest) = rest_after(b"http://", href) {
        return Some(from_slash(rest));
    }
    match rest_after(b"https://", href) {
        Some(rest) => Some(from_slash(rest)),
        None => None,
    }
}

/// A text with its escapes read once.
fn decoded(alloc: Global, text: &[u8]) -> Result<Vec<u8>, AllocError>
    ensures { IfOk result (λ bytes. bytes.items ≡ decoded_text text.now) }
{
    let mut bytes = Vec::new(alloc);
    percent_decode(text).append_to(&mut bytes)?;
    Ok(bytes)
}

/// The path that an href names, with its escapes read once. None if it is relative, or has a query or a fragment.
pub(crate) fn path_of(alloc: Global, href: &[u8]) -> Result<Option<Bytes>, AllocError>
    ensures { IfOk result (λ path. path ≡ path_of href.now) }
{
    if has_query(href) {
        return Ok(None);
    }
    match escaped_path(href) {
        None => Ok(None),
        Some(path) => Ok(Some(Bytes::from_vec(decoded(alloc, path)?))),
    }
}

/// A name in lower case, its escapes read once more.
pub(crate) fn folded(alloc: Global, name: &[u8]) -> Result<Bytes, AllocError>
    ensures { IfOk result (λ text. text ≡ folded name.now) }
{
    let mut text = decoded(alloc, name)?;
    text.make_ascii_lowercase();
    Ok(Bytes::from_vec(text))
}

//! The fixed parts of the body that lists a folder.

ghost use Rattle.std.specs.Prelude.{◌≡◌};
ghost use Rattle.dav_parts.specs.Multistatus.{heading, href_open, folder_close, date_open, entry_close, ending};

#[tactic(auto, unfolding(crate::specs::Multistatus::heading))]
pub(crate) fn heading() -> &'static [u8]
    ensures { result.now ≡ heading }
{
    b"<?xml version=\"1.0\" encoding=\"utf-8\"?>\n<d:multistatus xmlns:d=\"DAV:\">\n"
}

#[tactic(auto, unfolding(crate::specs::Multistatus::href_open))]
pub(crate) fn href_open() -> &'static [u8]
    ensures { result.now ≡ href_open }
{
    b"<d:response><d:href>"
}

#[tactic(auto, unfolding(crate::specs::Multistatus::folder_close))]
pub(crate) fn folder_close() -> &'static [u8]
    ensures { result.now ≡ folder_close }
{
    b"</d:href><d:propstat><d:prop><d:resourcetype><d:collection/></d:resourcetype></d:prop>\
      <d:status>HTTP/1.1 200 OK</d:status></d:propstat></d:response>\n"
}

#[tactic(auto, unfolding(crate::specs::Multistatus::date_open))]
pub(crate) fn date_open() -> &'static [u8]
    ensures { result.now ≡ date_open }
{
    b"</d:href><d:propstat><d:prop><d:getlastmodified>"
}

#[tactic(auto, unfolding(crate::specs::Multistatus::entry_close))]
pub(crate) fn entry_close() -> &'static [u8]
    ensures { result.now ≡ entry_close }
{
    b"</d:getlastmodified><d:resourcetype/></d:prop>\
      <d:status>HTTP/1.1 200 OK</d:status></d:propstat></d:response>\n"
}

/// The last line of the body that lists a folder.
#[tactic(auto, unfolding(crate::specs::Multistatus::ending))]
pub fn ending() -> &'static [u8]
    ensures { result.now ≡ ending }
{
    b"</d:multistatus>\n"
}

ghost use Rattle.std.specs.Prelude.{◌≡◌};
ghost use Rattle.conflicts.specs.Rules.{conflict_change};
ghost use Rattle.law_licences.specs.Copies.{copies_for, is_alike, is_same_note, must_copy, title_or_empty};
ghost use Rattle.law_licences.specs.Items.{is_plain_note};

use item_kinds::Kind;
use item_text::Item;
use jop_base::Bytes;
use local_store::{Change, Content, Row, has_kind};

/// The title; one that is absent equals an empty one.
fn title_or_empty(item: &Item) -> &[u8]
    ensures { result.now ≡ title_or_empty item.now }
{
    match &item.title {
        Some(title) => title.as_slice(),
        None => b"",
    }
}

/// Whether two items have the same title and body.
fn is_alike(item: &Item, other: &Item) -> bool
    ensures { result ≡ is_alike item.now other.now }
{
    title_or_empty(item) == title_or_empty(other) && item.body.as_slice() == other.body.as_slice()
}

/// Whether this is a readable note that says the same.
fn is_same_note(item: &Item, remote: &Content) -> bool
    ensures { result ≡ is_same_note item.now remote.now }
{
    match remote {
        Content::Sealed(_) => false,
        Content::Plain(other) => has_kind(other, Kind::NOTE) && is_alike(item, other),
    }
}

/// Whether the row's text is lost if the remote content takes its place: it is a readable note, and
/// the remote is sealed, or isn't a note, or differs in title or body. An absent title equals an
/// empty one.
pub fn must_copy(row: &Content, remote: &Content) -> bool
    ensures { result ≡ must_copy row.now remote.now }
{
    match row {
        Content::Sealed(_) => false,
        Content::Plain(item) => has_kind(item, Kind::NOTE) && !is_same_note(item, remote),
    }
}

fn is_plain_note(row: &Content) -> bool
    ensures { result ≡ is_plain_note row.now }
{
    match row {
        Content::Sealed(_) => false,
        Content::Plain(item) => has_kind(item, Kind::NOTE),
    }
}

/// Whether the row's text is lost if this takes its place, or nothing does.
fn copies_for(row: &Content, remote: &Option<(Bytes, Content)>) -> bool
    ensures { result ≡ copies_for row.now remote.now }
{
    match remote {
        Some((_, content)) => must_copy(row, content),
        None => is_plain_note(row),
    }
}

/// The change by which a row gives way to what its file holds, or to nothing. Its own text becomes
/// a conflict note if it must be copied, or, if there is no file, if it is a readable note.
pub fn conflict_change(row: &Row, remote: Option<(Bytes, Content)>) -> Change
    ensures { result ≡ conflict_change row.now remote }
{
    let copies = copies_for(&row.content, &remote);
    Change::Conflict(row.id, remote, copies)
}

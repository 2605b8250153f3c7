ghost use Rattle.std.specs.Prelude.{◌≡◌, ◌↔◌, IsTrue};

use jop_base::Bytes;
use jop_target::{Call, Entry, Listing, Reply};

pub(crate) fn is_same_call(call: &Call, other: &Call) -> bool
    ensures { IsTrue result ↔ (call.now ≡ other.now) }
{
    call == other
}

fn is_same_entry(entry: &Entry, other: &Entry) -> bool
    ensures { IsTrue result ↔ (entry.now ≡ other.now) }
{
    entry == other
}

fn are_same_entries(entries: &[Entry], others: &[Entry]) -> bool
    ensures { IsTrue result ↔ (entries.now ≡ others.now) }
{
    if entries.len() != others.len() {
        return false;
    }
    for index in 0..entries.len() {
        if !is_same_entry(&entries[index], &others[index]) {
            return false;
        }
    }
    true
}

fn is_same_listing(listing: &Listing, other: &Listing) -> bool
    ensures { IsTrue result ↔ (listing.entry.now ≡ other.entry.now) }
{
    listing.now == other.now
        && are_same_entries(listing.entries.as_slice(), other.entries.as_slice())
}

fn is_same_content(content: &Bytes, other: &Bytes) -> bool
    ensures { IsTrue result ↔ (content.now ≡ other.now) }
{
    content == other
}

// Written out: what `==` says of a whole reply isn't found.
pub(crate) fn is_same_reply(reply: &Reply, other: &Reply) -> bool
    ensures { IsTrue result ↔ (reply.now ≡ other.now) }
{
    match (reply, other) {
        (Reply::Listed(a), Reply::Listed(b)) => is_same_listing(a, b),
        (Reply::Got { now: m, content: a }, Reply::Got { now: n, content: b }) => {
            m == n && is_same_content(a, b)
        }
        (Reply::GotBlob { now: m, len: a }, Reply::GotBlob { now: n, len: b }) => m == n && a == b,
        (Reply::Absent { now: m }, Reply::Absent { now: n }) => m == n,
        (Reply::Done { now: m }, Reply::Done { now: n }) => m == n,
        (Reply::Failed, Reply::Failed) => true,
        (Reply::TooLarge { len: a }, Reply::TooLarge { len: b }) => a == b,
        _ => false,
    }
}

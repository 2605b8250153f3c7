ghost use Rattle.std.specs.Prelude.{◌≡◌};
ghost use Rattle.lease.specs.Calls.{sight_of};
ghost use Rattle.lease.specs.Phase.{is_in_time, stamp_in_time};

use crate::error::Seen;
use crate::lock::{Lock, RENEWAL};
use crate::locks::{blocking, own_stamp};
use jop_base::{ClientId, LockKind};
use jop_target::Listing;

/// What matters of a listing of the locks: its moment and the stamp of the client's own lock, if it
/// is there, both in milliseconds since 1970; and the first lock in the way.
#[derive(Clone, Copy, Debug, PartialEq, Eq)]
pub(crate) struct Sight {
    pub now: u64,
    pub own: Option<u64>,
    pub blocking: Option<Lock>,
}

impl Sight {
    ghost use Rattle.std.specs.Prelude.{◌≡◌};

    /// What a client has seen that gets no lease by this listing, or none any more behind this end
    /// of it.
    pub fn seen(self, old_end: Option<u64>) -> Seen
        ensures { result ≡ record { own = self.own; now = self.now; old_end = old_end } }
    {
        Seen {
            own: self.own,
            now: self.now,
            old_end,
        }
    }
}

/// What matters of a listing to a client that goes for a lease of this kind.
pub(crate) fn sight_of(listing: &Listing, kind: LockKind, client: &ClientId) -> Sight
    ensures { result ≡ sight_of kind client.now listing.entry.now }
{
    Sight {
        now: listing.now,
        own: own_stamp(listing, kind, client),
        blocking: blocking(listing, kind, client),
    }
}

/// The stamp from which the lease is held, if its own lock is shown in time, and was put before the
/// end of the lease as it was.
pub(crate) fn stamp_in_time(old_end: Option<u64>, now: u64, own: Option<u64>) -> Option<u64>
    ensures { result ≡ stamp_in_time old_end now own }
{
    match own {
        Some(stamp) if is_in_time(old_end, now, stamp) => Some(stamp),
        _ => None,
    }
}

fn is_in_time(old_end: Option<u64>, now: u64, stamp: u64) -> bool
    ensures { result ≡ is_in_time old_end now stamp }
{
    let shown = now < stamp || now - stamp < RENEWAL;
    match old_end {
        None => shown,
        Some(end) => stamp < end && shown,
    }
}

ghost use Rattle.std.specs.Prelude.{◌≡◌};
ghost use Rattle.std.specs.Iterator.{YieldsFirst, item_count};
ghost use Rattle.lease.specs.Locks.{locks_in, blocking_in, own_stamp, is_in_way, is_own_of};

use crate::lock::{Lock, excludes, is_own, live};
use jop_base::{ClientId, LockKind, Path};
use jop_target::{Entry, Listing};

/// The locks of a listing, in its order.
#[derive(Drop)]
pub struct Locks<'a> {
    entries: &'a [Entry],
}

impl<'a> Iterator for Locks<'a> {
    type Item = Lock;

    ghost next_gives = { YieldsFirst (λ s. locks_in s.entries.now) };

    ghost remaining = { item_count (λ s. locks_in s.entries.now) };

    fn next(&mut self) -> Option<Lock> {
        while let Some((entry, rest)) = self.entries.split_first() {
            self.entries = rest;
            if let Path::Lock(name) = entry.path {
                let stamp = entry.stamp;
                return Some(Lock { name, stamp });
            }
        }
        None
    }
}

/// The locks of a listing, in its order.
pub fn locks_of(listing: &Listing) -> Locks<'_>
    ensures { locks_in result.entries.now ≡ locks_in listing.entry.now.entries }
{
    Locks {
        entries: listing.entries.as_slice(),
    }
}

/// The first lock of a listing that is another's, is live, and keeps this client from taking a lock
/// of this kind.
pub fn blocking(listing: &Listing, kind: LockKind, client: &ClientId) -> Option<Lock>
    ensures { result ≡ blocking_in kind client.now listing.entry.now }
{
    let now = listing.now;
    for lock in locks_of(listing) {
        if is_in_way(&lock, kind, client, now) {
            return Some(lock);
        }
    }
    None
}

/// Whether the lock is another's, is live, and keeps this client from taking a lock of this kind.
fn is_in_way(lock: &Lock, kind: LockKind, client: &ClientId, now: u64) -> bool
    ensures { result ≡ is_in_way kind client.now now lock.now }
{
    excludes(kind, lock.name.kind) && !is_own(&lock.name, client) && live(lock, now)
}

/// The stamp of the client's own lock of this kind.
pub(crate) fn own_stamp(listing: &Listing, kind: LockKind, client: &ClientId) -> Option<u64>
    ensures { result ≡ own_stamp kind client.now listing.entry.now }
{
    for lock in locks_of(listing) {
        if is_own_of(&lock, kind, client) {
            return Some(lock.stamp);
        }
    }
    None
}

/// Whether the lock is the client's own of this kind.
fn is_own_of(lock: &Lock, kind: LockKind, client: &ClientId) -> bool
    ensures { result ≡ is_own_of kind client.now lock.now }
{
    is_own(&lock.name, client) && kind == lock.name.kind
}

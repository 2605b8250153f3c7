ghost use Rattle.std.specs.Prelude.{◌≡◌, ◌+◌, ◌-◌, ◌≤◌, ◌↔◌, IsTrue};
ghost use Rattle.lease.specs.Locks.{LIFE as LIFETIME, RENEWAL as RENEWAL_TIME};

use crate::lock::{LIFE, RENEWAL};
use jop_base::{ClientId, LockKind};

/// A lease on a target: whose it is, and the stamp of its lock, in milliseconds since 1970.
#[derive(Clone, Copy, Debug, PartialEq, Eq)]
pub struct Lease {
    pub client: ClientId,
    pub kind: LockKind,
    pub stamp: u64,
}

impl Lease {
    /// The first moment at which the lease's lock is no longer live.
    pub fn end(&self) -> u64
        requires { self.now.stamp ≤ u64.MAX - LIFETIME }
        ensures { result ≡ self.now.stamp + LIFETIME }
    {
        self.stamp + LIFE
    }

    /// Whether the lease has to be renewed before anything else is asked at that moment.
    pub fn due(&self, now: u64) -> bool
        ensures { IsTrue result ↔ (self.now.stamp + RENEWAL_TIME ≤ now) }
    {
        now >= self.stamp && now - self.stamp >= RENEWAL
    }
}

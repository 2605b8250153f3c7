ghost use Rattle.std.specs.Prelude.{◌≡◌};
ghost use Rattle.lease.specs.Locks.{is_live, is_own, excludes, own_name};

use jop_base::{ClientId, LockKind, LockName, Path};

/// How long a lock lives from its stamp on, in milliseconds.
pub const LIFE: u64 = 180_000;

/// How long a lease is used from its lock's stamp on before it is renewed, in milliseconds.
pub const RENEWAL: u64 = 60_000;

/// The digit by which this program's locks differ from those of other programs for the same id.
pub const CLIENT_TYPE: u8 = 3;

/// A lock on a target: its name, and when its file was written, in milliseconds since 1970.
#[derive(Clone, Copy, Debug, PartialEq, Eq)]
pub struct Lock {
    pub name: LockName,
    pub stamp: u64,
}

/// Whether the lock is live at a moment.
pub fn live(lock: &Lock, now: u64) -> bool
    ensures { result ≡ is_live lock.now now }
{
    now < lock.stamp || now - lock.stamp < LIFE
}

/// Whether the lock is one of this program for this client.
pub(crate) fn is_own(name: &LockName, client: &ClientId) -> bool
    ensures { result ≡ is_own client.now name.now }
{
    name.client_type == CLIENT_TYPE && name.client == *client
}

/// Whether a lock of the second kind, of another, keeps one of the first from being taken.
pub(crate) fn excludes(kind: LockKind, other: LockKind) -> bool
    ensures { result ≡ excludes kind other }
{
    match (kind, other) {
        (LockKind::Sync, LockKind::Sync) => false,
        (LockKind::Sync, LockKind::Exclusive) => true,
        (LockKind::Exclusive, _) => true,
    }
}

/// The name of the client's own lock.
pub(crate) fn own_name(kind: LockKind, client: &ClientId) -> LockName
    ensures { result ≡ own_name kind client.now }
{
    LockName {
        kind,
        client_type: CLIENT_TYPE,
        client: *client,
    }
}

/// The file of the client's own lock.
pub(crate) fn own_path(kind: LockKind, client: &ClientId) -> Path
    ensures { result ≡ Path.Lock (own_name kind client.now) }
{
    Path::Lock(own_name(kind, client))
}

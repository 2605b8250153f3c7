ghost use Rattle.std.specs.Prelude.{◌≡◌, None};
ghost use Rattle.jop_target.specs.Trail.{moment_of};
ghost use Rattle.target_webdav.specs.Marks.{takes_info_away, expects_info, gets_info, heard_after, info_after, has_done, is_entry_true, is_file_between, is_got, is_before_end, is_info, is_listing_true, is_lock_between, is_reply_true, is_same_lock, is_shown_true, is_stamp_between, lock_name_of, mark_after, no_mark, own_lock_after, own_with, put_lock, shows_if, shows_info, are_entries_true};

use jop_base::{Dir, LockName, MAX_TIME, Path};
use jop_target::{Call, Entry, Listing, Reply};

/// How far past a listing's own moment a lock of it may be stamped, in milliseconds.
const SKEW: u64 = 60_000;

/// The lock that was put last.
#[derive(Clone, Copy, Debug, PartialEq, Eq)]
pub struct OwnLock {
    pub name: LockName,
    /// The latest moment that the server had told before, in milliseconds since 1970.
    pub floor: u64,
}

/// What is remembered of a server, by which a false clock is known, and a listing of another folder.
#[derive(Clone, Copy, Debug, PartialEq, Eq)]
pub struct Mark {
    /// The latest moment that it told, in milliseconds since 1970.
    pub heard: u64,
    pub own: Option<OwnLock>,
    /// Whether `info.json` is there.
    pub info: bool,
}

fn is_same_lock(one: &LockName, other: &LockName) -> bool
    ensures { result ≡ is_same_lock one.now other.now }
{
    one.client == other.client
        && one.kind.digit() == other.kind.digit()
        && one.client_type == other.client_type
}

fn is_stamp_between(floor: u64, now: u64, stamp: u64) -> bool
    ensures { result ≡ is_stamp_between floor now stamp }
{
    floor <= stamp && stamp.saturating_sub(SKEW) <= now
}

fn is_lock_between(own: Option<OwnLock>, now: u64, name: &LockName, stamp: u64) -> bool
    ensures { result ≡ is_lock_between own now name.now stamp }
{
    match own {
        None => true,
        Some(own) => !is_same_lock(&own.name, name) || is_stamp_between(own.floor, now, stamp),
    }
}

fn is_file_between(own: Option<OwnLock>, now: u64, path: &Path, stamp: u64) -> bool
    ensures { result ≡ is_file_between own now path.now stamp }
{
    match path {
        Path::Lock(name) => is_lock_between(own, now, name, stamp),
        _ => true,
    }
}

fn is_entry_true(own: Option<OwnLock>, now: u64, entry: &Entry) -> bool
    ensures { result ≡ is_entry_true own now entry.now }
{
    entry.stamp <= MAX_TIME && is_file_between(own, now, &entry.path, entry.stamp)
}

fn is_info(path: &Path) -> bool
    ensures { result ≡ is_info path.now }
{
    matches!(path, Path::Info)
}

fn shows_info(entries: &[Entry]) -> bool
    ensures { result ≡ shows_info entries.now }
{
    entries.iter().any(|entry| is_info(&entry.path))
}

fn shows_if(info: bool, entries: &[Entry]) -> bool
    ensures { result ≡ shows_if info entries.now }
{
    !info || shows_info(entries)
}

fn are_entries_true(own: Option<OwnLock>, now: u64, entries: &[Entry]) -> bool
    ensures { result ≡ are_entries_true own now entries.now }
{
    entries.iter().all(|entry| is_entry_true(own, now, entry))
}

fn is_listing_true(own: Option<OwnLock>, info: bool, listing: &Listing) -> bool
    ensures { result ≡ is_listing_true own info listing.entry.now }
{
    let entries = listing.entries.as_slice();
    are_entries_true(own, listing.now, entries) && shows_if(info, entries)
}

fn is_shown_true(own: Option<OwnLock>, info: bool, reply: &Reply) -> bool
    ensures { result ≡ is_shown_true own info reply.now }
{
    match reply {
        Reply::Listed(listing) => is_listing_true(own, info, listing),
        _ => true,
    }
}

fn is_before_end(moment: Option<u64>) -> bool
    ensures { result ≡ is_before_end moment }
{
    match moment {
        None => true,
        Some(now) => now <= MAX_TIME,
    }
}

fn heard_after(heard: u64, moment: Option<u64>) -> u64
    ensures { result ≡ heard_after heard moment }
{
    match moment {
        None => heard,
        Some(now) => { if heard < now { now } else { heard } }
    }
}

fn lock_name_of(path: &Path) -> Option<LockName>
    ensures { result ≡ lock_name_of path.now }
{
    match path {
        Path::Lock(name) => Some(*name),
        _ => None,
    }
}

fn put_lock(call: &Call) -> Option<LockName>
    ensures { result ≡ put_lock call.now }
{
    match call {
        Call::Put(path, _) => lock_name_of(path),
        _ => None,
    }
}

fn own_with(own: Option<OwnLock>, name: Option<LockName>, heard: u64) -> Option<OwnLock>
    ensures { result ≡ own_with own name heard }
{
    match name {
        None => own,
        Some(name) => Some(OwnLock { name, floor: heard }),
    }
}

fn has_done(reply: &Reply) -> bool
    ensures { result ≡ has_done reply.now }
{
    matches!(reply, Reply::Done { .. })
}

fn is_got(reply: &Reply) -> bool
    ensures { result ≡ is_got reply.now }
{
    matches!(reply, Reply::Got { .. })
}

fn gets_info(call: &Call) -> bool
    ensures { result ≡ gets_info call.now }
{
    match call {
        Call::Get(path) => is_info(path),
        _ => false,
    }
}

fn takes_info_away(call: &Call) -> bool
    ensures { result ≡ takes_info_away call.now }
{
    match call {
        Call::Delete(path) => is_info(path),
        _ => false,
    }
}

fn info_after(info: bool, call: &Call, reply: &Reply) -> bool
    ensures { result ≡ info_after info call.now reply.now }
{
    !takes_info_away(call) && (info || (gets_info(call) && is_got(reply)))
}

impl Mark {
    /// Nothing is remembered yet.
    pub(crate) fn none() -> Mark
        ensures { result ≡ no_mark }
    {
        Mark {
            heard: 0,
            own: None,
            info: false,
        }
    }

    /// Whether a listing must show `info.json`.
    fn expects_info(&self, call: &Call) -> bool
        ensures { result ≡ expects_info self.now call.now }
    {
        match call {
            Call::List(Dir::Root) => self.info,
            _ => false,
        }
    }

    /// Whether a reply agrees with what is remembered.
    pub(crate) fn is_reply_true(&self, call: &Call, reply: &Reply) -> bool
        ensures { result ≡ is_reply_true self.now call.now reply.now }
    {
        is_before_end(reply.moment()) && is_shown_true(self.own, self.expects_info(call), reply)
    }

    fn own_lock_after(&self, call: &Call, reply: &Reply) -> Option<OwnLock>
        ensures { result ≡ own_lock_after self.now call.now reply.now }
    {
        if has_done(reply) {
            own_with(self.own, put_lock(call), self.heard)
        } else {
            self.own
        }
    }

    /// What is remembered once a call was answered.
    pub(crate) fn after(&self, call: &Call, reply: &Reply) -> Mark
        ensures { result ≡ mark_after self.now call.now reply.now }
    {
        Mark {
            heard: heard_after(self.heard, reply.moment()),
            own: self.own_lock_after(call, reply),
            info: info_after(self.info, call, reply),
        }
    }
}

ghost use Rattle.std.specs.Prelude.{◌≡◌, ◌≤◌, ◌+◌, ◌*◌, ◌/◌, min};

use jop_base::MAX_TIME;
use std::fs::Metadata;
use std::os::unix::fs::MetadataExt;

/// When a file was written, in whole milliseconds since 1970, rounded down: 0 before 1970, and at most `MAX_TIME`.
pub(crate) fn stamp_of(metadata: &Metadata) -> u64
    ensures { result ≤ MAX_TIME }
{
    match u64::try_from(metadata.mtime()) {
        Ok(secs) => millis(secs, metadata.mtime_nsec().unsigned_abs()),
        Err(_) => 0,
    }
}

/// The whole milliseconds of seconds and nanoseconds, at most `MAX_TIME`.
fn millis(secs: u64, nanos: u64) -> u64
    ensures { result ≡ min (secs * 1000 + nanos / 1_000_000) MAX_TIME }
{
    secs.saturating_mul(1000)
        .saturating_add(nanos / 1_000_000)
        .min(MAX_TIME)
}

/// When the bytes, rights or names of a file, or the names in a folder, were last changed, in seconds since 1970, and
/// nanoseconds. No program can set that.
pub(crate) fn changed_at(metadata: &Metadata) -> (i64, i64) {
    (metadata.ctime(), metadata.ctime_nsec())
}

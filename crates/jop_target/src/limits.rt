ghost use Rattle.std.specs.Prelude.{◌≡◌};
ghost use Rattle.jop_target.specs.Store.{limit_of};

use jop_base::Path;

/// The most bytes of a file that is read and isn't a blob: 16 MiB.
pub const FILE_LIMIT: u64 = 16_777_216;

/// The most bytes of a blob that is read: 64 MiB.
pub const BLOB_LIMIT: u64 = 67_108_864;

/// The most bytes of a file that are read.
pub fn limit_of(path: &Path) -> u64
    ensures { result ≡ limit_of path.now }
{
    match path {
        Path::Blob(_) => BLOB_LIMIT,
        _ => FILE_LIMIT,
    }
}

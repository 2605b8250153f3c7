ghost use Rattle.std.specs.Prelude.{◌≡◌, ◌≤◌};
ghost use Rattle.target_webdav.specs.Budgets.{kept_limit};

use jop_base::Dir;
use jop_target::Call;

/// The most bytes that are kept of a listing of the root: room for several hundred thousand files.
const LISTING_LIMIT: usize = 268_435_456;

/// Those of a listing of another folder: room for ten thousand locks, and less than the memory of a run has room for.
const FOLDER_LISTING: usize = 8_388_608;

/// Those of a blob, and of any other body.
const BLOB_BODY: usize = 67_108_864;

const FILE_BODY: usize = 16_777_216;

/// The most bytes that are kept of the body that answers a call. More are a fault: a server could otherwise fill
/// the memory.
pub(crate) fn kept_limit(call: &Call) -> usize
    ensures is { result ≡ kept_limit call.now }
    ensures bounded { result ≤ 268_435_456 }
{
    match call {
        Call::List(Dir::Root) => LISTING_LIMIT,
        Call::List(_) => FOLDER_LISTING,
        Call::GetBlob(_) => BLOB_BODY,
        _ => FILE_BODY,
    }
}

ghost use Rattle.std.specs.Prelude.{◌≡◌};
ghost use Rattle.target_dav.specs.Responses.{response_limit};

use jop_base::Dir;
use jop_target::{BLOB_LIMIT, Call, FILE_LIMIT};

/// The most bytes that are waited for of a listing of the root: room for a million files.
const LISTING_LIMIT: u64 = 268_435_456;

/// The most bytes that are waited for, once its head came, of the body that answers a call. More are
/// not waited for: a server could otherwise fill the memory.
pub(crate) fn response_limit(call: &Call) -> u64
    ensures { result ≡ response_limit call.now }
{
    match call {
        Call::List(Dir::Root) => LISTING_LIMIT,
        Call::GetBlob(_) => BLOB_LIMIT,
        _ => FILE_LIMIT,
    }
}

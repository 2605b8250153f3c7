ghost use Rattle.std.specs.Prelude.{◌≡◌, IfOk, MatchOption, None, Some};
ghost use Rattle.jed_format.specs.Base64.{decoded};

use base64::DecodeAllocError;
use base64::engine::general_purpose::{STANDARD, STANDARD_NO_PAD};
use jop_base::Bytes;
use std::alloc::{AllocError, Global};

/// The bytes of standard base64, wholly padded or not at all. None for any other text.
#[tactic(auto, unfolding(crate::specs::Base64::decoded))]
pub(crate) fn decoded(alloc: Global, text: &[u8]) -> Result<Option<Bytes>, AllocError>
    ensures { IfOk result (λ found. found ≡ decoded text.now) }
{
    match STANDARD.decode(alloc, text) {
        Ok(bytes) => Ok(Some(Bytes::from_vec(bytes))),
        Err(DecodeAllocError::OutOfMemory) => Err(AllocError),
        Err(DecodeAllocError::DecodeError(_)) => match STANDARD_NO_PAD.decode(alloc, text) {
            Ok(bytes) => Ok(Some(Bytes::from_vec(bytes))),
            Err(DecodeAllocError::OutOfMemory) => Err(AllocError),
            Err(DecodeAllocError::DecodeError(_)) => Ok(None),
        },
    }
}

ghost use Rattle.std.specs.Prelude.{◌≡◌, ◌++◌, ℕ, List, replicate};
ghost use Rattle.sha2.specs.Sha256.{sha256};
ghost use Rattle.sha2.specs.Hashers.{Holds256};
ghost use Rattle.aes_ccm.specs.Lists.{xored};
ghost use Rattle.aes_ccm.specs.Hmac.{key_block, hmac_of};

use crate::xor::{filled, xor_from};
use sha2::{Digest, Sha256};

/// The key, or its digest if it is longer than a block, and zeros behind it.
pub(crate) fn key_block(key: &[u8]) -> [u8; 64]
    ensures { result ≡ key_block key.now }
{
    if key.len() <= 64 {
        filled(key)
    } else {
        filled(&Sha256::digest(key))
    }
}

/// A hasher of a key's block, to each byte of which a byte was added.
pub(crate) fn hasher_of(block: &[u8; 64], pad: u8) -> Sha256
    ensures { Holds256 result (xored block.now (replicate 64 pad)) }
{
    let mut padded = *block;
    xor_from(&mut padded, 0, &[pad; 64]);
    Sha256::new_with_prefix(padded)
}

/// A hasher of what the hasher holds and a text behind it.
pub(crate) fn longer(hasher: &Sha256, text: &[u8]) -> Sha256
    ensures { (held : List ℕ) → Holds256 hasher.now held → Holds256 result (held ++ text.now) }
{
    match hasher.clone() {
        Ok(hasher) => hasher.chain_update(text),
        Err(_) => unreachable!(),
    }
}

/// The digest of what the hasher holds and a text behind it.
fn digest_behind(hasher: &Sha256, text: &[u8]) -> [u8; 32]
    ensures { (held : List ℕ) → Holds256 hasher.now held → result ≡ sha256 (held ++ text.now) }
{
    longer(hasher, text).finalize()
}

/// The HMAC of a text, by hashers of the inner and the outer block of its key.
pub(crate) fn hmac_by(inner: &Sha256, outer: &Sha256, text: &[u8]) -> [u8; 32]
    ensures { (i o : List ℕ) → Holds256 inner.now i → Holds256 outer.now o
        → result ≡ sha256 (o ++ sha256 (i ++ text.now)) }
{
    digest_behind(outer, &digest_behind(inner, text))
}

/// HMAC (RFC 2104) with SHA-256.
pub fn hmac(key: &[u8], text: &[u8]) -> [u8; 32]
    ensures { result ≡ hmac_of key.now text.now }
{
    let block = key_block(key);
    hmac_by(&hasher_of(&block, 0x36), &hasher_of(&block, 0x5c), text)
}

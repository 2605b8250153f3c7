ghost use Rattle.std.specs.Prelude.{◌≡◌, ◌≤◌, ◌++◌, ℕ, List, [], ◌∷◌};
ghost use Rattle.sha2.specs.Sha256.{sha256};
ghost use Rattle.sha2.specs.Hashers.{Holds256};
ghost use Rattle.aes_ccm.specs.Hmac.{pbkdf2_of};

use crate::keyed_hash::{hasher_of, hmac_by, key_block, longer};
use crate::xor::xor_from;

/// The first block of PBKDF2 (RFC 8018, 5.2) with HMAC-SHA-256, of so many turns.
pub fn pbkdf2(password: &[u8], salt: &[u8], iter: u32) -> [u8; 32]
    requires { 1 ≤ iter }
    ensures { result ≡ pbkdf2_of password.now salt.now iter }
{
    let block = key_block(password);
    let inner = hasher_of(&block, 0x36);
    let outer = hasher_of(&block, 0x5c);
    let mut turn = hmac_by(&longer(&inner, salt), &outer, &[0, 0, 0, 1]);
    let mut sum = turn;
    for _n in 1..iter {
        let next = hmac_by(&inner, &outer, &turn);
        turn = next;
        xor_from(&mut sum, 0, &turn);
    }
    sum
}

ghost use Rattle.std.specs.Prelude.{◌≡◌, ◌≤◌, length};
ghost use Rattle.aes_ccm.specs.Ccm.{blocks_in, chained, ciphered};

use crate::aes::Aes;
use crate::block::counter;
use crate::state::State;

/// Seals a text, and chains its blocks on from a block, in one pass: a block of the chain and the next one of the
/// stream are enciphered together.
pub(crate) fn seal_text(key: &Aes, nonce: &[u8], start: State, text: &mut [u8]) -> State
    requires { length nonce.now ≤ 14 }
    ensures text { text.new ≡ ciphered key.now nonce.now text.old }
    ensures chain { result ≡ chained key.now start text.old (blocks_in (length text.old)) }
{
    let mut chain = start;
    let mut ahead = key.encrypt(&counter(nonce, 1));
    for n in 0..(text.len() + 15) / 16 {
        let sum = chain.plus_at(text, 16 * n);
        ahead.add_to(text, 16 * n);
        let (next, behind) = key.encrypt_both(&sum, &counter(nonce, n as u64 + 2));
        chain = next;
        ahead = behind;
    }
    chain
}

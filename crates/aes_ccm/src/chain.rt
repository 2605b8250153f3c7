//! The chain of blocks that CCM authenticates (SP 800-38C, 6.1), as far as the text begins.

ghost use Rattle.std.specs.Prelude.{◌≡◌, ◌≤◌, ◌<◌, ◌/◌, length};
ghost use Rattle.aes_ccm.specs.Ccm.{blocks_in, chained, header, headed};

use crate::aes::Aes;
use crate::block::first_block;
use crate::state::State;
use crate::xor::xor_from;

/// The blocks of a text, chained on from a block.
fn chain(key: &Aes, start: State, text: &[u8]) -> State
    ensures { result ≡ chained key.now start text.now (blocks_in (length text.now)) }
{
    let mut block = start;
    for n in 0..(text.len() + 15) / 16 {
        let next = key.encrypt(&block.plus_at(text, 16 * n));
        block = next;
    }
    block
}

/// The associated data behind their length, chained on from a block.
fn chain_header(key: &Aes, start: State, adata: &[u8]) -> State
    requires { length adata.now < 65280 }
    ensures { result ≡ chained key.now start (header adata.now) (length (header adata.now) / 16) }
{
    if adata.is_empty() {
        return start;
    }
    let mut block = start.bytes();
    xor_from(&mut block, 0, &(adata.len() as u16).to_be_bytes());
    xor_from(&mut block, 2, adata);
    chain(
        key,
        key.encrypt(&State::of(block)),
        &adata[adata.len().min(14)..],
    )
}

/// The chain over the first block and the header.
pub(crate) fn headed(
    key: &Aes,
    nonce: &[u8],
    adata: &[u8],
    text_len: usize,
    tag_len: usize,
) -> State
    requires nonce { length nonce.now ≤ 14 }
    requires tag { tag_len ≤ 16 }
    requires adata { length adata.now < 65280 }
    ensures { result ≡ headed key.now nonce.now adata.now text_len tag_len }
{
    let first = first_block(nonce, adata, text_len, tag_len);
    chain_header(key, chain(key, State::of([0; 16]), &first), adata)
}

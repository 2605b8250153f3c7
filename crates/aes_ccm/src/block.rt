ghost use Rattle.std.specs.Prelude.{◌≡◌, ◌≤◌, length};
ghost use Rattle.aes_ccm.specs.Ccm.{numbered, counter, first_block};

use crate::state::State;

/// A byte of flags, the nonce, and a number in the bytes that are left, the highest first.
fn numbered(flags: u8, nonce: &[u8], number: u64) -> [u8; 16]
    requires { length nonce.now ≤ 15 }
    ensures { result ≡ numbered flags nonce.now number }
{
    let mut block = u128::from(number).to_be_bytes();
    block[0] = flags;
    block[1..nonce.len() + 1].copy_from_slice(nonce);
    block
}

/// Counter block `j`.
pub(crate) fn counter(nonce: &[u8], j: u64) -> State
    requires { length nonce.now ≤ 14 }
    ensures { result ≡ counter nonce.now j }
{
    State::of(numbered(14 - nonce.len() as u8, nonce, j))
}

/// The first block that is authenticated, of a text of `text_len` bytes under a tag of `tag_len`.
pub(crate) fn first_block(nonce: &[u8], adata: &[u8], text_len: usize, tag_len: usize) -> [u8; 16]
    requires nonce { length nonce.now ≤ 14 }
    requires tag { tag_len ≤ 16 }
    ensures { result ≡ first_block nonce.now adata.now text_len tag_len }
{
    let adata_flag = if adata.is_empty() { 0 } else { 64 };
    let tag_flags = 8 * (tag_len.saturating_sub(2) / 2) as u8;
    numbered(
        adata_flag + tag_flags + (14 - nonce.len() as u8),
        nonce,
        text_len as u64,
    )
}

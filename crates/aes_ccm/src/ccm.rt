ghost use Rattle.std.specs.Prelude.{◌≡◌, ◌≢◌, ◌≤◌, ◌<◌, ◌-◌, ◌*◌, ◌^◌, ◌++◌, ◌↔◌, true, false, Err, OnOk, OnErr, IfOk, IfErr, length, take, replicate, nat_lt};
ghost use Rattle.aes_ccm.specs.Aes.{aes};
ghost use Rattle.aes_ccm.specs.Lists.{xored};
ghost use Rattle.aes_ccm.specs.Ccm.{are_good, counter, ciphered, tag_of};

use crate::aes::Aes;
use crate::block::counter;
use crate::ccm_err::CcmErr;
use crate::chain::headed;
use crate::opening::open_text;
use crate::sealing::seal_text;
use crate::state::State;
use crate::xor::filled;

/// Whether a length can be written in so many bytes.
fn fits(len: usize, bytes: usize) -> bool
    requires { bytes ≤ 8 }
    ensures { result ≡ nat_lt len (2 ^ (8 * bytes)) }
{
    bytes == 8 || len >> (8 * bytes) == 0
}

fn are_good(nonce: &[u8], tag_len: usize, adata: &[u8], text: &[u8]) -> bool
    ensures { result ≡ are_good (length nonce.now) tag_len (length adata.now) (length text.now) }
{
    matches!(nonce.len(), 7..=13)
        && matches!(tag_len, 4..=16)
        && tag_len % 2 == 0
        && adata.len() < 65_280
        && fits(text.len(), 15 - nonce.len())
}

/// The tag that the chain over all blocks gives, and zeros behind it.
fn tag_behind(key: &Aes, nonce: &[u8], chain: &State, tag_len: usize) -> [u8; 16]
    requires nonce { length nonce.now ≤ 14 }
    requires tag { tag_len ≤ 16 }
    ensures { result ≡ take tag_len (xored chain.now (aes key.now (counter nonce.now 0)))
        ++ replicate (16 - tag_len) 0 }
{
    let whole = chain.plus(&key.encrypt(&counter(nonce, 0))).bytes();
    filled(&whole[..tag_len])
}

/// Seals a text in place by CCM (SP 800-38C), and gives its tag of `tag_len` bytes, with zeros behind
/// it. The nonce is never to be used again under the same key.
pub fn ccm_seal(
    key: &Aes,
    nonce: &[u8],
    adata: &[u8],
    text: &mut [u8],
    tag_len: usize,
) -> Result<[u8; 16], CcmErr>
    ensures text { OnOk result (text.new ≡ ciphered key.now nonce.now text.old) }
    ensures tag { IfOk result (λ tag. tag
        ≡ tag_of key.now nonce.now adata.now text.old tag_len ++ replicate (16 - tag_len) 0) }

    ensures params { result ≡ Err CcmErr.BadParams
        ↔ (are_good (length nonce.now) tag_len (length adata.now) (length text.old) ≡ false) }
    ensures only { IfErr result (λ e. e ≡ CcmErr.BadParams) }
    ensures err { OnErr result (text.new ≡ text.old) }
{
    if !are_good(nonce, tag_len, adata, text) {
        return Err(CcmErr::BadParams);
    }
    let start = headed(key, nonce, adata, text.len(), tag_len);
    let chain = seal_text(key, nonce, start, text);
    Ok(tag_behind(key, nonce, &chain, tag_len))
}

/// Opens a sealed text in place by CCM (SP 800-38C). A tag that differs is found when the text is
/// open; the text is then sealed again, which costs a second pass over the text.
pub fn ccm_open(
    key: &Aes,
    nonce: &[u8],
    adata: &[u8],
    text: &mut [u8],
    tag: &[u8],
) -> Result<(), CcmErr>
    ensures text { OnOk result (text.new ≡ ciphered key.now nonce.now text.old) }
    ensures tag { OnOk result (tag.now ≡ tag_of key.now nonce.now adata.now text.new (length tag.now)) }

    ensures params { result ≡ Err CcmErr.BadParams
        ↔ (are_good (length nonce.now) (length tag.now) (length adata.now) (length text.old) ≡ false) }
    // Besides, the parameters are good.
    ensures differs { result ≡ Err CcmErr.BadTag
        → tag.now ≢ tag_of key.now nonce.now adata.now
        (ciphered key.now nonce.now text.old) (length tag.now) }
    ensures good { result ≡ Err CcmErr.BadTag
        → are_good (length nonce.now) (length tag.now) (length adata.now) (length text.old) ≡ true }
    ensures err { OnErr result (text.new ≡ text.old) }
{
    if !are_good(nonce, tag.len(), adata, text) {
        return Err(CcmErr::BadParams);
    }
    let start = headed(key, nonce, adata, text.len(), tag.len());
    let chain = open_text(key, nonce, start, text);
    let own = tag_behind(key, nonce, &chain, tag.len());
    if &own[..tag.len()] == tag {
        return Ok(());
    }
    seal_text(key, nonce, chain, text);
    Err(CcmErr::BadTag)
}

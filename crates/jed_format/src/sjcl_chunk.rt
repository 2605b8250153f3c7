ghost use Rattle.std.specs.Prelude.{◌≡◌};
ghost use Rattle.jed_format.specs.Chunk.{is_chunk};

use jop_base::Bytes;

/// A sealed piece of a text: what SJCL writes of it as a JSON object, in mode `ccm` of `aes`.
#[derive(Debug, Drop)]
pub struct SjclChunk {
    /// 7 to 64 bytes, of which the first are the nonce.
    pub iv: Bytes,
    /// Turns of the key's derivation, 1 to 100,000.
    pub iter: u32,
    /// Bits of the key: 128, 192 or 256.
    pub ks: u16,
    /// Bits of the tag: 64, 96 or 128.
    pub ts: u16,
    /// At most 64 bytes.
    pub salt: Bytes,
    /// The sealed piece of at most 2^24 bytes, and the tag behind it.
    pub ct: Bytes,
}

impl SjclChunk {
    /// Whether each part is within its limits.
    pub fn is_valid(&self) -> bool
        ensures { result ≡ is_chunk self.now }
    {
        let tag = usize::from(self.ts / 8);
        matches!(self.iv.len(), 7..=64)
            && matches!(self.iter, 1..=100_000)
            && matches!(self.ks, 128 | 192 | 256)
            && matches!(self.ts, 64 | 96 | 128)
            && self.salt.len() <= 64
            && self.ct.len() >= tag
            && self.ct.len() <= 16_777_216 + tag
    }
}

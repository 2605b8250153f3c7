use aes_ccm::{Aes, CcmErr, ccm_open, ccm_seal, hmac, pbkdf2};
use std::alloc::{AllocError, Global};
use std::test::Fail;

/// The number that up to 16 bytes write, the first counting most.
fn number(bytes: &[u8]) -> u128 {
    let mut n: u128 = 0;
    for byte in bytes {
        n = n << 8 | u128::from(*byte);
    }
    n
}

/// The first bytes, and the others; all and none where there are fewer.
fn split(bytes: &[u8], len: usize) -> (&[u8], &[u8]) {
    bytes.split_at(len.min(bytes.len()))
}

/// So many of the bytes, from this place on.
fn part(bytes: &[u8], first: usize, len: usize) -> &[u8] {
    split(split(bytes, first).1, len).0
}

/// Whether these are the numbers that 32 bytes write, the first 16 and the others.
fn are_halves(bytes: &[u8], first: u128, last: u128) -> bool {
    let (front, back) = split(bytes, 16);
    number(front) == first && number(back) == last
}

/// So many bytes that count up, from the first on.
fn counting(alloc: Global, first: u8, len: usize) -> Result<Vec<u8>, AllocError> {
    let mut bytes = Vec::new(alloc);
    for n in 0..len {
        bytes.push(first.wrapping_add((n % 256) as u8))?;
    }
    Ok(bytes)
}

// FIPS 197, appendix C.
#[test]
fn blocks_are_those_of_the_standard(rt: HostRuntime) -> Result<(), Fail> {
    let key = counting(rt.alloc(), 0, 32)?;
    let block = 0x00112233445566778899aabbccddeeffu128.to_be_bytes();
    for (len, want) in [
        (16, 0x69c4e0d86a7b0430d8cdb78070b4c55au128),
        (24, 0xdda97ca4864cdfe06eaf70a0ec0d7191),
        (32, 0x8ea2b7ca516745bfeafc49904b496089),
    ] {
        let aes = Aes::new(split(&key, len).0).ok_or("a key")?;
        assert_eq!(rt; number(&aes.encrypt_block(block)), want, "{len}");
    }
    assert!(rt; Aes::new(split(&key, 17).0).is_none());
    Ok(())
}

/// An example of SP 800-38C, appendix C: the lengths of its parts in bytes, and what they are sealed to, the
/// first 16 bytes, those behind them, and the tag.
struct Example {
    nonce: usize,
    adata: usize,
    text: usize,
    tag_len: usize,
    sealed: u128,
    tail: u128,
    tag: u128,
}

const EXAMPLES: [Example; 3] = [
    Example {
        nonce: 7,
        adata: 8,
        text: 4,
        tag_len: 4,
        sealed: 0x7162015b,
        tail: 0,
        tag: 0x4dac255d,
    },
    Example {
        nonce: 8,
        adata: 16,
        text: 16,
        tag_len: 6,
        sealed: 0xd2a1f0e051ea5f62081a7792073d593d,
        tail: 0,
        tag: 0x1fc64fbfaccd,
    },
    Example {
        nonce: 12,
        adata: 20,
        text: 24,
        tag_len: 8,
        sealed: 0xe3b201a9f5b71a7a9b1ceaeccd97e70b,
        tail: 0x6176aad9a4428aa5,
        tag: 0x484392fbc1b09951,
    },
];

impl Example {
    /// Whether a text was sealed so, with this tag.
    fn is_sealed(&self, text: &[u8], tag: &[u8]) -> bool {
        let (front, tail) = split(text, 16);
        number(front) == self.sealed && number(tail) == self.tail && number(tag) == self.tag
    }

    /// What opening a sealed text comes to. The parts stand among bytes that count up from 0.
    fn open(&self, aes: &Aes, bytes: &[u8], text: &mut [u8], tag: &[u8]) -> Result<(), CcmErr> {
        let nonce = part(bytes, 0x10, self.nonce);
        ccm_open(aes, nonce, part(bytes, 0, self.adata), text, tag)
    }

    /// Whether a sealed text isn't opened with another tag, and stays as it is.
    fn refuses(&self, aes: &Aes, bytes: &[u8], text: &mut [u8], mut tag: [u8; 16]) -> bool {
        tag[3] ^= 1;
        let refused = self.open(aes, bytes, text, split(&tag, self.tag_len).0);
        tag[3] ^= 1;
        refused == Err(CcmErr::BadTag) && self.is_sealed(text, split(&tag, self.tag_len).0)
    }

    /// Whether it is opened with its own.
    fn opens(&self, aes: &Aes, bytes: &[u8], text: &mut [u8], tag: [u8; 16]) -> bool {
        let opened = self.open(aes, bytes, text, split(&tag, self.tag_len).0);
        opened == Ok(()) && &*text == part(bytes, 0x20, self.text)
    }

    /// Whether its text, which is handed in, is sealed so and opened again.
    fn seals_and_opens(&self, aes: &Aes, bytes: &[u8], text: &mut [u8]) -> bool {
        let (nonce, adata) = (part(bytes, 0x10, self.nonce), part(bytes, 0, self.adata));
        let Ok(tag) = ccm_seal(aes, nonce, adata, text, self.tag_len) else {
            return false;
        };
        self.is_sealed(text, split(&tag, self.tag_len).0)
            && self.refuses(aes, bytes, text, tag)
            && self.opens(aes, bytes, text, tag)
    }

    fn comes_out(&self, alloc: Global, aes: &Aes, bytes: &[u8]) -> Result<bool, AllocError> {
        let mut text = counting(alloc, 0x20, self.text)?;
        Ok(self.seals_and_opens(aes, bytes, &mut text))
    }
}

#[test]
fn texts_are_sealed_as_in_the_standard(rt: HostRuntime) -> Result<(), Fail> {
    let bytes = counting(rt.alloc(), 0, 0x50)?;
    let aes = Aes::new(part(&bytes, 0x40, 16)).ok_or("a key")?;
    for example in &EXAMPLES {
        assert!(rt; example.comes_out(rt.alloc(), &aes, &bytes)?);
    }
    Ok(())
}

/// The lengths in bytes of a nonce, a header, a text and a tag, and whether a text is sealed with them.
const PARAMETERS: [([usize; 4], bool); 10] = [
    ([6, 0, 0, 4], false),
    ([7, 0, 0, 4], true),
    ([13, 65_279, 65_535, 16], true),
    ([13, 65_280, 0, 16], false),
    ([13, 0, 65_536, 16], false),
    ([12, 0, 65_536, 16], true),
    ([14, 0, 0, 16], false),
    ([12, 0, 0, 2], false),
    ([12, 0, 0, 5], false),
    ([12, 0, 0, 18], false),
];

/// Whether a text of zeros is sealed with parts of these lengths.
fn is_sealed(
    alloc: Global,
    aes: &Aes,
    zeros: &[u8],
    lengths: [usize; 4],
) -> Result<bool, AllocError> {
    let [nonce, adata, text, tag] = lengths;
    let mut text = vec![in alloc; 0u8; text]?;
    let sealed = ccm_seal(
        aes,
        split(zeros, nonce).0,
        split(zeros, adata).0,
        &mut text,
        tag,
    );
    Ok(sealed != Err(CcmErr::BadParams))
}

#[test]
fn parameters_end_where_the_standard_says(rt: HostRuntime) -> Result<(), Fail> {
    let aes = Aes::new(&[0; 16]).ok_or("a key")?;
    let zeros = vec![in rt.alloc(); 0u8; 65_536]?;
    for (lengths, good) in PARAMETERS {
        let sealed = is_sealed(rt.alloc(), &aes, &zeros, lengths)?;
        assert_eq!(rt; sealed, good, "{lengths:?}");
    }
    Ok(())
}

// RFC 4231, cases 1, 2 and 6.
#[test]
fn hmacs_are_those_of_the_standard(rt: HostRuntime) -> Result<(), Fail> {
    let long = "Test Using Larger Than Block-Size Key - Hash Key First";
    let short_key = vec![in rt.alloc(); 0x0bu8; 20]?;
    let long_key = vec![in rt.alloc(); 0xaau8; 131]?;
    for (key, text, first, last) in [
        (
            short_key.as_slice(),
            "Hi There",
            0xb0344c61d8db38535ca8afceaf0bf12bu128,
            0x881dc200c9833da726e9376c2e32cff7u128,
        ),
        (
            "Jefe".as_bytes(),
            "what do ya want for nothing?",
            0x5bdcc146bf60754e6a042426089575c7,
            0x5a003f089d2739839dec58b964ec3843,
        ),
        (
            long_key.as_slice(),
            long,
            0x60e431591ee0b67f0d8a26aacbf5b77f,
            0x8e0bc6213728c5140546040f0ee37f54,
        ),
    ] {
        assert!(rt; are_halves(&hmac(key, text.as_bytes()), first, last));
    }
    Ok(())
}

// RFC 7914, section 11, and three of the IETF's draft of vectors for this function.
#[test]
fn keys_are_those_of_the_standard(rt: HostRuntime) {
    for (own, first, last) in [
        (
            pbkdf2(b"password", b"salt", 1),
            0x120fb6cffcf8b32c43e7225256c4f837u128,
            0xa86548c92ccc35480805987cb70be17bu128,
        ),
        (
            pbkdf2(b"passwd", b"salt", 1),
            0x55ac046e56e3089fec1691c22544b605,
            0xf94185216dde0465e68b9d57c20dacbc,
        ),
        (
            pbkdf2(b"Password", b"NaCl", 80_000),
            0x4ddcd8f60b98be21830cee5ef22701f9,
            0x641a4418d04c0414aeff08876b34ab56,
        ),
        (
            pbkdf2(b"password", b"salt", 4_096),
            0xc5e478d59288c841aa530db6845c4c8d,
            0x962893a001ce4e11a4963873aa98134a,
        ),
    ] {
        assert!(rt; are_halves(&own, first, last));
    }
}

ghost use Rattle.std.specs.List.{AllPass};
ghost use Rattle.std.specs.Prelude.{IfOk};
ghost use Rattle.jed_format.specs.Chunk.{is_chunk};

use crate::sealing::{sealed, sealed_piece};
use jed_format::{Jed, JedErr, SjclChunk, escape, open_blob, open_text, read_jed, write_jed};
use jop_base::{Bytes, Text};
use std::alloc::Global;
use std::test::*;

/// 4,999 `x`, and a letter of two units.
pub(crate) fn long_text(alloc: Global) -> Result<Text, Fail> {
    let mut text = Text::new(alloc);
    for _ in 0..4_999 {
        text.append("x")?;
    }
    text.append("\u{1f600}")?;
    Ok(text)
}

/// The text, sealed in pieces and written.
fn sealed_bytes(alloc: Global, text: &Text) -> Result<Vec<u8>, Fail> {
    let pieces = escape(alloc, text)?;
    let mut texts = Vec::new(alloc);
    for piece in &pieces {
        texts.push(piece.as_slice())?;
    }
    written_pieces(alloc, &texts)
}

fn written(alloc: Global, jed: &Jed) -> Result<Vec<u8>, Fail> {
    if !jed.is_brief() {
        return Err("too long")?;
    }
    Ok(write_jed(alloc, jed)?.into_vec())
}

/// The pieces, sealed and written.
fn written_pieces(alloc: Global, pieces: &[&[u8]]) -> Result<Vec<u8>, Fail> {
    written(alloc, &sealed(alloc, 5, pieces)?)
}

/// The sealed text that these bytes write.
fn jed_of(alloc: Global, bytes: &[u8]) -> Result<Jed, Fail>
    ensures { IfOk result (λ jed. AllPass is_chunk jed.chunks) }
{
    Ok(read_jed(alloc, bytes)?)
}

/// The pieces, sealed, written and read.
fn jed_of_pieces(alloc: Global, pieces: &[&[u8]]) -> Result<Jed, Fail>
    ensures { IfOk result (λ jed. AllPass is_chunk jed.chunks) }
{
    let bytes = written_pieces(alloc, pieces)?;
    jed_of(alloc, &bytes)
}

/// Whether it opens to that text.
fn is_text(alloc: Global, jed: &Jed, want: &str) -> Result<bool, Fail>
    requires { AllPass is_chunk jed.now.chunks }
{
    Ok(open_text(alloc, jed, b"password")?.as_str() == want)
}

/// Whether it opens to the bytes of that blob.
fn is_blob(alloc: Global, jed: &Jed, want: &[u8]) -> Result<bool, Fail>
    requires { AllPass is_chunk jed.now.chunks }
{
    Ok(open_blob(alloc, jed, b"password")?.as_slice() == want)
}

/// Whether the pieces open to that text.
fn opens_to_text(alloc: Global, pieces: &[&[u8]], want: &str) -> Result<bool, Fail> {
    let jed = jed_of_pieces(alloc, pieces)?;
    is_text(alloc, &jed, want)
}

/// Why they open to no text.
fn text_refusal(alloc: Global, pieces: &[&[u8]]) -> Result<Option<JedErr>, Fail> {
    let jed = jed_of_pieces(alloc, pieces)?;
    Ok(open_text(alloc, &jed, b"password").err())
}

/// Whether the pieces open to the bytes of that blob.
fn opens_to_blob(alloc: Global, pieces: &[&[u8]], want: &[u8]) -> Result<bool, Fail> {
    let jed = jed_of_pieces(alloc, pieces)?;
    is_blob(alloc, &jed, want)
}

/// Why they open to no blob.
fn blob_refusal(alloc: Global, pieces: &[&[u8]]) -> Result<Option<JedErr>, Fail> {
    let jed = jed_of_pieces(alloc, pieces)?;
    Ok(open_blob(alloc, &jed, b"password").err())
}

fn sealed_long_text(alloc: Global) -> Result<Vec<u8>, Fail> {
    let text = long_text(alloc)?;
    sealed_bytes(alloc, &text)
}

/// Whether a sealed text has the lengths of its two pieces where they belong.
fn are_two_pieces(bytes: &[u8]) -> bool {
    bytes.len() == 7_033
        && bytes.get(45..51) == Some(b"001aa4".as_slice())
        && bytes.get(6_871..6_877) == Some(b"00009c".as_slice())
}

#[test]
fn a_text_is_sealed_in_two_pieces(rt: HostRuntime) -> Result<(), Fail> {
    let bytes = sealed_long_text(rt.alloc())?;
    assert!(rt; are_two_pieces(&bytes));
    Ok(())
}

fn is_long_text(alloc: Global, jed: &Jed) -> Result<bool, Fail>
    requires { AllPass is_chunk jed.now.chunks }
{
    let text = long_text(alloc)?;
    is_text(alloc, jed, text.as_str())
}

/// Whether another password doesn't open it.
fn is_locked(alloc: Global, jed: &Jed) -> bool
    requires { AllPass is_chunk jed.now.chunks }
{
    open_text(alloc, jed, b"passwort").err() == Some(JedErr::BadTag { n: 1 })
}

#[test]
fn a_text_of_two_pieces_opens(rt: HostRuntime) -> Result<(), Fail> {
    let bytes = sealed_long_text(rt.alloc())?;
    let jed = jed_of(rt.alloc(), &bytes)?;
    assert!(rt; is_long_text(rt.alloc(), &jed)?);
    assert!(rt; is_locked(rt.alloc(), &jed));
    Ok(())
}

/// Two pieces, of which the second one has a wrong tag.
fn wrongly_sealed(alloc: Global) -> Result<Vec<u8>, Fail> {
    let mut jed = sealed(alloc, 5, &[b"first", b"second"])?;
    let other = with_wrong_tag(sealed_piece(alloc, b"second", 2)?);
    if jed.chunks.len() != 2 {
        return Err("two pieces")?;
    }
    jed.chunks.set(1, other);
    written(alloc, &jed)
}

/// Whether the second piece opens to no text, and the first one to no bytes.
fn is_wrong(alloc: Global, jed: &Jed) -> bool
    requires { AllPass is_chunk jed.now.chunks }
{
    open_text(alloc, jed, b"password").err() == Some(JedErr::BadTag { n: 2 })
        && open_blob(alloc, jed, b"password").err() == Some(JedErr::BadChunk { n: 1 })
}

#[test]
fn a_wrong_tag_of_the_second_piece_is_found(rt: HostRuntime) -> Result<(), Fail> {
    let bytes = wrongly_sealed(rt.alloc())?;
    let jed = jed_of(rt.alloc(), &bytes)?;
    assert!(rt; is_wrong(rt.alloc(), &jed));
    Ok(())
}

/// The chunk with the last bit of its tag turned.
fn with_wrong_tag(chunk: SjclChunk) -> SjclChunk {
    let mut ct = chunk.ct.into_vec();
    if let Some(byte) = ct.last_mut() {
        *byte ^= 1;
    }
    SjclChunk {
        iv: chunk.iv,
        iter: chunk.iter,
        ks: chunk.ks,
        ts: chunk.ts,
        salt: chunk.salt,
        ct: Bytes::from_vec(ct),
    }
}

#[test]
fn a_length_that_is_one_more_is_refused(rt: HostRuntime) -> Result<(), Fail> {
    let mut bytes = sealed_long_text(rt.alloc())?;
    if let Some(digit) = bytes.get_mut(6_876) {
        *digit = b'd';
    }
    assert!(rt; read_jed(rt.alloc(), &bytes).err() == Some(JedErr::BadChunk { n: 2 }));
    Ok(())
}

#[test]
fn a_text_without_chunks_opens_to_nothing(rt: HostRuntime) -> Result<(), Fail> {
    let jed = jed_of(rt.alloc(), b"JED010000220511111111111111111111111111111111")?;
    assert_eq!(rt; jed.chunks.len(), 0);
    assert!(rt; is_text(rt.alloc(), &jed, "")? && is_blob(rt.alloc(), &jed, b"")?);
    Ok(())
}

const BAD_PIECES: [[&[u8]; 2]; 5] = [
    [b"QQ==", b"Q"],
    [b"QQ==", b"QQ==Qg=="],
    [b"QQ==", b"Q%u0151"],
    [b"QQ==", b"QQ\n=="],
    [b"QQ==", b"\xff"],
];

#[test]
fn each_piece_of_a_blob_is_base64_by_itself(rt: HostRuntime) -> Result<(), Fail> {
    assert!(rt; opens_to_blob(rt.alloc(), &[b"QQ%3D%3D", b"Qg", b""], b"AB")?);
    for pieces in BAD_PIECES {
        let refused = blob_refusal(rt.alloc(), &pieces)?;
        assert_eq!(rt; refused, Some(JedErr::BadChunk { n: 2 }));
    }
    Ok(())
}

const JOINED: [([&[u8]; 2], &str); 4] = [
    ([b"%uD83D", b"%uDE00"], "\u{1f600}"),
    ([b"%uDE00", b"%uD83D"], "\u{fffd}\u{fffd}"),
    ([b"%u00e", b"9"], "%u00e9"),
    ([b"\xc3\xa9", b"%E9"], "\u{e9}\u{e9}"),
];

#[test]
fn units_are_joined_before_they_are_read(rt: HostRuntime) -> Result<(), Fail> {
    for (pieces, want) in JOINED {
        assert!(rt; opens_to_text(rt.alloc(), &pieces, want)?);
    }
    let refused = text_refusal(rt.alloc(), &[b"a", b"\xc3"])?;
    assert_eq!(rt; refused, Some(JedErr::BadChunk { n: 2 }));
    Ok(())
}

const METHODS: [(u8, &str); 6] = [
    (b'1', "%41"),
    (b'2', "%41"),
    (b'3', "%41"),
    (b'4', "%41"),
    (b'5', "A"),
    (b'7', "A"),
];

/// A piece, sealed and written, whose header names this method.
fn written_by(alloc: Global, method: u8) -> Result<Vec<u8>, Fail> {
    let mut bytes = written_pieces(alloc, &[b"%41"])?;
    if let Some(digit) = bytes.get_mut(12) {
        *digit = method;
    }
    Ok(bytes)
}

/// Whether a piece whose header names this method opens to that.
fn opens_by(alloc: Global, method: u8, want: &str) -> Result<bool, Fail> {
    let bytes = written_by(alloc, method)?;
    let jed = jed_of(alloc, &bytes)?;
    is_text(alloc, &jed, want)
}

#[test]
fn pieces_of_other_methods_are_not_escaped(rt: HostRuntime) -> Result<(), Fail> {
    for (method, want) in METHODS {
        assert!(rt; opens_by(rt.alloc(), method, want)?);
    }
    Ok(())
}

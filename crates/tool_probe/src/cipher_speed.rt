//! How long some jobs take: sealing 16 MiB by CCM, and opening them; PBKDF2 of 10,000 turns; opening a
//! sealed note of 1 MiB, of letters alone and of words with spaces between them; and what each of these
//! two is made of, each key and each piece.

use aes_ccm::{Aes, ccm_open, ccm_seal, pbkdf2};
use anyhow::Context;
use jed_format::{Jed, SjclChunk, open_text};
use jop_base::{Bytes, Id, Seq};
use std::alloc::{AllocError, Global};
use std::time::Instant;

/// How many bytes are sealed and opened by CCM alone.
const LONG: usize = 16_777_216;

/// The pieces of a note of 1 MiB.
const PIECES: u32 = 210;

const PASSWORD: &[u8] = b"password";

/// Turns of the key of each piece.
const TURNS: u32 = 101;

/// How many bytes a tag has.
const TAG: usize = 8;

/// What is measured.
#[derive(Clone, Copy)]
enum Job<'a> {
    Sealing,
    /// Of these bytes, whose tag stands behind them.
    Opening(&'a [u8]),
    Turns,
    Note(&'a Jed),
    Parts(&'a Jed),
}

impl Job<'_> {
    /// Does it, and gives a number that it made.
    fn done(&self, alloc: Global) -> Result<u64, AllocError> {
        match self {
            Job::Sealing => sealed_len(alloc),
            Job::Opening(sealed) => opened(alloc, long_key(), &[1; 11], sealed),
            Job::Turns => Ok(u64::from(pbkdf2(PASSWORD, b"saltsalt", 10_000)[0])),
            Job::Note(jed) => Ok(note_len(alloc, jed) as u64),
            Job::Parts(jed) => parts(alloc, jed),
        }
    }
}

/// Does a job, and prints its name, how many microseconds it took, and the number that it made.
fn time(rt: &HostRuntime, name: &str, job: &Job<'_>) -> anyhow::Result<()> {
    let start = Instant::now(rt)?;
    let made = job.done(rt.alloc())?;
    let took = start.elapsed(rt)?.as_micros();
    println!(rt; "{name} {took} {made}")?;
    Ok(())
}

/// Does each job once, of these bytes and these two notes.
fn time_all<'a>(
    rt: &HostRuntime,
    text: &'a [u8],
    letters: &'a Jed,
    words: &'a Jed,
) -> anyhow::Result<()> {
    for (name, job) in [
        ("sealing", Job::Sealing),
        ("opening", Job::Opening(text)),
        ("turns", Job::Turns),
        ("letters", Job::Note(letters)),
        ("letters-parts", Job::Parts(letters)),
        ("words", Job::Note(words)),
        ("words-parts", Job::Parts(words)),
    ] {
        time(rt, name, &job)?;
    }
    Ok(())
}

pub(crate) fn speed(rt: &HostRuntime) -> anyhow::Result<()> {
    let text = long_text(rt.alloc())?;
    let letters = sealed_note(rt.alloc(), b"x", 5_000)?;
    let words = sealed_note(rt.alloc(), b"words%20", 833)?;
    for _ in 0..5 {
        time_all(rt, &text, &letters, &words)?;
    }
    Ok(())
}

/// The key of what is sealed by CCM alone.
fn long_key() -> Option<Aes> {
    Aes::new(&[7; 16])
}

/// Zeros that were sealed, and their tag.
fn long_text(alloc: Global) -> Result<Vec<u8>, AllocError> {
    let mut text = vec![in alloc; 0u8; LONG]?;
    seal_with(long_key(), &[1; 11], &mut text)?;
    Ok(text)
}

/// Seals so many zeros, and gives how many they are; 0 if they can't be sealed.
fn sealed_len(alloc: Global) -> Result<u64, AllocError> {
    let mut text = vec![in alloc; 0u8; LONG]?;
    let Some(key) = long_key() else {
        return Ok(0);
    };
    match ccm_seal(&key, &[1; 11], &[], &mut text, TAG) {
        Ok(_) => Ok(text.len() as u64),
        Err(_) => Ok(0),
    }
}

/// Seals a text in place, and puts its tag behind it.
fn seal_with(key: Option<Aes>, nonce: &[u8], text: &mut Vec<u8>) -> Result<(), AllocError> {
    let Some(key) = key else {
        return Ok(());
    };
    if let Ok(tag) = ccm_seal(&key, nonce, &[], text, TAG) {
        text.extend_from_slice(tag.get(..TAG).unwrap_or(&[]))?;
    }
    Ok(())
}

/// Opens a copy of what is sealed, whose tag stands behind it. How many bytes it has; 0 if it doesn't open.
fn opened(alloc: Global, key: Option<Aes>, nonce: &[u8], sealed: &[u8]) -> Result<u64, AllocError> {
    let (text, tag) = sealed.split_at(sealed.len().saturating_sub(TAG));
    let Some(key) = key else {
        return Ok(0);
    };
    let mut text = text.to_vec(alloc)?;
    match ccm_open(&key, nonce, &[], &mut text, tag) {
        Ok(()) => Ok(text.len() as u64),
        Err(_) => Ok(0),
    }
}

/// The key of a piece, by its salt.
fn key_of(salt: &[u8]) -> Option<Aes> {
    Aes::new(pbkdf2(PASSWORD, salt, TURNS).get(..16).unwrap_or(&[]))
}

/// A piece that is so many times this text, sealed as Joplin does.
fn sealed_piece(alloc: Global, number: u8, text: &[u8], times: u32) -> anyhow::Result<SjclChunk> {
    let mut ct = Vec::new(alloc);
    for _ in 0..times {
        ct.extend_from_slice(text)?;
    }
    seal_with(key_of(&[number; 8]), &[number; 13], &mut ct)?;
    Ok(SjclChunk {
        iv: Bytes::from_vec([number; 16].to_vec(alloc)?),
        iter: TURNS,
        ks: 128,
        ts: 64,
        salt: Bytes::from_vec([number; 8].to_vec(alloc)?),
        ct: Bytes::from_vec(ct),
    })
}

/// A note of such pieces.
fn sealed_note(alloc: Global, text: &[u8], times: u32) -> anyhow::Result<Jed> {
    let key = Id::read(b"11111111111111111111111111111111").context("no id")?;
    let mut chunks = Seq::new(alloc);
    for n in 0..PIECES {
        chunks.push(sealed_piece(alloc, (n % 256) as u8, text, times)?)?;
    }
    Ok(Jed {
        method: 5,
        key,
        chunks,
    })
}

/// How many bytes the note has; 0 if it doesn't open.
fn note_len(alloc: Global, jed: &Jed) -> usize {
    if !jed.is_brief() {
        return 0;
    }
    match open_text(alloc, jed, PASSWORD) {
        Ok(text) => text.len(),
        Err(_) => 0,
    }
}

/// The keys of all pieces, and each piece opened. How many bytes they have.
fn parts(alloc: Global, jed: &Jed) -> Result<u64, AllocError> {
    let mut sum = 0u64;
    for chunk in jed.chunks.as_slice() {
        let nonce = chunk.iv.as_slice().get(..13).unwrap_or(&[]);
        let len = opened(
            alloc,
            key_of(chunk.salt.as_slice()),
            nonce,
            chunk.ct.as_slice(),
        )?;
        sum = sum.saturating_add(len);
    }
    Ok(sum)
}

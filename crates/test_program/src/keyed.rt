//! Commands on master keys, one after the other over tables in memory.

use crate::machine::Client;
use jop_base::Bytes;
use jop_outside::MemEntropy;
use keeper_records::MemKeeper;
use std::alloc::{AllocError, Global};
use std::test::*;

/// Words and an input, and what they come to: the exit status, what is printed, and what is told on standard error. The
/// keys and the resource are made of bytes that count up.
const ROWS: [(&str, &str, u8, &str, &str); 12] = [
    ("keys", "", 0, "", ""),
    (
        "keys --new secret",
        "",
        0,
        "000102030405060708090a0b0c0d0e0f\n",
        "",
    ),
    (
        "keys --new other",
        "",
        0,
        "28292a2b2c2d2e2f3031323334353637\n",
        "",
    ),
    (
        "keys",
        "",
        0,
        "000102030405060708090a0b0c0d0e0f -\n28292a2b2c2d2e2f3031323334353637 active\n",
        "",
    ),
    ("keys --use 000102030405060708090a0b0c0d0e0f", "", 0, "", ""),
    (
        "keys",
        "",
        0,
        "000102030405060708090a0b0c0d0e0f active\n28292a2b2c2d2e2f3031323334353637 -\n",
        "",
    ),
    (
        "keys --use 99999999999999999999999999999999",
        "",
        15,
        "",
        "not found 99999999999999999999999999999999\n",
    ),
    (
        "attach a text/plain",
        "hello",
        0,
        "505152535455565758595a5b5c5d5e5f\n",
        "",
    ),
    ("blob 5051", "", 0, "hello", ""),
    (
        "blob 505152535455565758595a5b5c5d5e5f --password any",
        "",
        0,
        "hello",
        "",
    ),
    (
        "blob 99999999999999999999999999999999",
        "",
        15,
        "",
        "not found 99999999999999999999999999999999\n",
    ),
    ("keys --new third", "", 14, "", "random source fault\n"),
];

/// A source of so many bytes that count up, and from 255 on from 0 again.
fn source(alloc: Global, len: usize) -> Result<MemEntropy, AllocError> {
    let mut bytes = Bytes::new(alloc);
    for n in 0..len {
        bytes.push((n % 256) as u8)?;
    }
    Ok(MemEntropy::new(alloc, bytes))
}

/// The first words that come to something else.
fn first_surprise(alloc: Global) -> Result<Option<&'static str>, AllocError> {
    let entropy = source(alloc, 700)?;
    let mut client = Client::new(alloc, MemKeeper::new(alloc), 5, entropy);
    for (line, input, exit, out, err) in ROWS {
        let came = client.play(alloc, line, input.as_bytes())?;
        let right = came == exit
            && client.out.written() == out.as_bytes()
            && client.err.written() == err.as_bytes();
        if !right {
            return Ok(Some(line));
        }
    }
    Ok(None)
}

#[test]
fn keys_are_made_listed_and_used(rt: HostRuntime) -> Result<(), Fail> {
    let surprise = first_surprise(rt.alloc())?;
    assert_eq!(rt; surprise, None);
    Ok(())
}

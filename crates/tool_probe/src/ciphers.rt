//! CCM beside other programs.

use aes_ccm::{Aes, ccm_open, ccm_seal};
use std::alloc::Global;
use std::io::Read;

/// Seals what standard input says, a line each, and prints a line for each.
pub(crate) fn seal(rt: &HostRuntime) -> anyhow::Result<()> {
    let mut bytes = Vec::new(rt.alloc());
    rt.stdin().read_to_end(&mut bytes)?;
    let input = std::str::from_utf8(&bytes).unwrap_or("");
    for line in input.lines() {
        answer(rt, line)?;
    }
    Ok(())
}

fn bytes_of(alloc: Global, word: Option<&str>) -> anyhow::Result<Vec<u8>> {
    Ok(hex::decode(alloc, word.unwrap_or("").as_bytes())?)
}

/// Seals what a line says, and prints what came of it.
fn answer(rt: &HostRuntime, line: &str) -> anyhow::Result<()> {
    let alloc = rt.alloc();
    let mut words = line.split(' ');
    let key = bytes_of(alloc, words.next())?;
    let nonce = bytes_of(alloc, words.next())?;
    let adata = bytes_of(alloc, words.next())?;
    let text = bytes_of(alloc, words.next())?;
    let tag_len = words.next().unwrap_or("").parse::<usize>().unwrap_or(0);
    match Aes::new(&key) {
        Some(key) => sealed(rt, &key, &nonce, &adata, &text, tag_len),
        None => Ok(println!(rt; "refused")?),
    }
}

fn sealed(
    rt: &HostRuntime,
    key: &Aes,
    nonce: &[u8],
    adata: &[u8],
    plain: &[u8],
    tag_len: usize,
) -> anyhow::Result<()> {
    let alloc = rt.alloc();
    let mut text = plain.to_vec(alloc)?;
    let Ok(tag) = ccm_seal(key, nonce, adata, &mut text, tag_len) else {
        return Ok(println!(rt; "refused")?);
    };
    let digits = hex::encode(alloc, text.as_slice())?;
    let tag = tag.get(..tag_len).unwrap_or(&[]);
    let opens = ccm_open(key, nonce, adata, &mut text, tag).is_ok() && text.as_slice() == plain;
    let end = hex::encode(alloc, tag)?;
    let said = if opens { "opens" } else { "fails" };
    println!(rt; "{digits} {end} {said}")?;
    Ok(())
}

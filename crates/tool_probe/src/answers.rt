//! What parts of jop answer to many inputs, one after another.

use crate::messages::{input, listing_in, request};
use item_text::{BadItem, Item, ItemErr, is_item, read_item, write_item};
use jed_format::read_jed;
use jop_base::{LockName, read_decimal};
use sync_info::{InfoErr, read_info};

/// The input that the bytes begin with, and what stands behind it. None if there is no whole one.
fn next_input(bytes: &[u8]) -> Option<(&[u8], &[u8])> {
    let end = bytes.iter().position(|byte| *byte == b'\n')?;
    let len = read_decimal(bytes.get(..end)?)? as usize;
    let (_, rest) = bytes.get(end..)?.split_first()?;
    Some((rest.get(..len)?, rest.get(len..)?))
}

/// Prints a line for each input that stands on standard input: the number of its bytes in decimal
/// digits, a line feed, and the bytes.
pub(crate) fn answers(rt: &HostRuntime, kind: &str) -> anyhow::Result<()> {
    let bytes = input(rt)?;
    let mut rest = bytes.as_slice();
    for _ in 0..bytes.len() {
        let Some((text, behind)) = next_input(rest) else {
            break;
        };
        answer(rt, kind, text)?;
        rest = behind;
    }
    Ok(())
}

/// Prints what an input of a kind reads as.
fn answer(rt: &HostRuntime, kind: &str, text: &[u8]) -> anyhow::Result<()> {
    match kind {
        "item" => item(rt, text),
        "info" => info(rt, text),
        "jed" => jed(rt, text),
        "lock" => lock(rt, text),
        "listing" => listing_in(rt, text),
        _ => {
            request(rt, text)?;
            Ok(())
        }
    }
}

fn item(rt: &HostRuntime, text: &[u8]) -> anyhow::Result<()> {
    match read_item(rt.alloc(), text) {
        Ok(item) => tell_item(rt, &item, text),
        Err(ItemErr::Bad(BadItem { line, why })) => Ok(println!(rt; "bad line {line} {why:?}")?),
        Err(ItemErr::NoMemory) => anyhow::bail!("no memory"),
    }
}

/// Prints of how many bytes its text is, and whether it is the one that was read.
fn tell_item(rt: &HostRuntime, item: &Item, text: &[u8]) -> anyhow::Result<()> {
    if !is_item(item) {
        return Ok(println!(rt; "no item")?);
    }
    let written = write_item(rt.alloc(), item)?;
    let same = written.as_slice() == text;
    println!(rt;
        "item of {} pairs, {} bytes, {same}",
        item.props.as_slice().len(),
        written.len()
    )?;
    Ok(())
}

fn info(rt: &HostRuntime, text: &[u8]) -> anyhow::Result<()> {
    match read_info(rt.alloc(), text) {
        Ok(info) => Ok(println!(rt; "version {}", info.version)?),
        Err(InfoErr::Bad(_)) => Ok(println!(rt; "bad")?),
        Err(InfoErr::NoMemory) => anyhow::bail!("no memory"),
    }
}

fn jed(rt: &HostRuntime, text: &[u8]) -> anyhow::Result<()> {
    match read_jed(rt.alloc(), text) {
        Ok(jed) => println!(rt;
            "method {}, {} chunks",
            jed.method,
            jed.chunks.as_slice().len()
        )?,
        Err(error) => println!(rt; "{error:?}")?,
    }
    Ok(())
}

fn lock(rt: &HostRuntime, text: &[u8]) -> anyhow::Result<()> {
    match LockName::read(text) {
        Some(name) => println!(rt; "{name}")?,
        None => println!(rt; "none")?,
    }
    Ok(())
}

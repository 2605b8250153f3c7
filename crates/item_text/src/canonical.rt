ghost use Rattle.std.specs.Prelude.{◌≡◌, ◌++◌, OnOk, IfOk, map, option_map};
ghost use Rattle.item_text.specs.Lines.{lines, joined};
ghost use Rattle.item_text.specs.Grammar.{title_text, gap_behind, prop_text, pair_of};
ghost use Rattle.item_text.specs.Canonical.{GivesCanonical};
ghost use Rattle.item_text.specs.Steps.{lines_of, block_text};

use crate::bad_item::ItemErr;
use crate::block::cut_block;
use crate::line::first_line;
use crate::pair::pair_in;
use crate::read::{head_of, not_text};
use crate::type_value::type_refusal;
use crate::write::{put_gap, put_title};
use jop_base::Text;
use std::alloc::{AllocError, Global};

/// Adds the canonical form of a property line.
fn put_line(out: &mut Text, line: &str) -> Result<(), AllocError>
    ensures { OnOk result (out.new ≡ out.old ++ prop_text (pair_of line.now)) }
{
    let (key, value) = pair_in(line);
    out.append(key)?;
    out.append(": ")?;
    out.append(value)
}

fn put_lines(out: &mut Text, block: &str) -> Result<(), AllocError>
    ensures { OnOk result (out.new ≡ out.old ++ block_text (lines block.now)) }
{
    let mut rest = block;
    'lines: loop {
        let (line, below) = first_line(rest);
        put_line(out, line)?;
        let Some(more) = below else {
            return Ok(());
        };
        out.append("\n")?;
        rest = more;
    }
}

fn put_block(out: &mut Text, block: Option<&str>) -> Result<(), AllocError>
    ensures { OnOk result (out.new ≡ out.old ++ block_text (lines_of block.entry)) }
{
    match block {
        None => Ok(()),
        Some(block) => put_lines(out, block),
    }
}

fn before_body(alloc: Global, title: Option<&str>) -> Result<Text, AllocError>
    ensures { IfOk result
        (λ text. text ≡ title_text (option_map (λ title. title.now) title.entry)) }
{
    let mut out = Text::new(alloc);
    put_title(&mut out, title)?;
    Ok(out)
}

/// How long the canonical form of property lines may be: a line gets one space at most.
fn room_for(block: Option<&str>) -> usize {
    match block {
        None => 2,
        Some(block) => block
            .len()
            .saturating_add(block.len() / 2)
            .saturating_add(3),
    }
}

fn behind_body(alloc: Global, body: &str, block: Option<&str>) -> Result<Text, AllocError>
    ensures { IfOk result (λ text. text
        ≡ gap_behind body.now ++ block_text (lines_of block.entry)) }
{
    let mut out = Text::with_capacity(alloc, room_for(block))?;
    put_gap(&mut out, body)?;
    put_block(&mut out, block)?;
    Ok(out)
}

fn canonical_text(alloc: Global, text: &str) -> Result<(Text, &str, Text), ItemErr>
    ensures { GivesCanonical text.now result }
{
    let (above, block) = cut_block(text)?;
    if let Some(bad) = type_refusal(text, block) {
        return Err(ItemErr::Bad(bad));
    }
    let (title, body) = head_of(above);
    let before = before_body(alloc, title)?;
    let behind = behind_body(alloc, body, block)?;
    Ok((before, body, behind))
}

/// The text of the item that the bytes read to, as [`write_item`](crate::write_item) gives it, or the first refusal.
/// It comes in three parts: what stands before the body, the body, and what stands behind it. So a long body isn't
/// copied, and no list of pairs is made. Time and memory are linear in the bytes.
pub fn canonical_parts(alloc: Global, bytes: &[u8]) -> Result<(Text, &str, Text), ItemErr>
    ensures { GivesCanonical bytes.now result }
{
    match std::str::from_utf8(bytes) {
        Ok(text) => canonical_text(alloc, text),
        Err(_) => Err(not_text()),
    }
}

ghost use Rattle.std.specs.Prelude.{◌≡◌, ◌∷◌, ◌++◌, Some, length, map, IfOk, MatchOption, MatchResult};
ghost use Rattle.item_text.specs.Lines.{lines};
ghost use Rattle.item_text.specs.Grammar.{pair_of, lines_fault};
ghost use Rattle.item_text.specs.Steps.{lines_of, IsFirstPart, IsBlock};

use crate::bad_item::{BadItem, BadWhy};
use crate::item::Prop;
use crate::line::{first_line, last_line, line_count};
use crate::pair::pair_in;
use crate::trim::has_text;
use crate::valid::has;
use jop_base::{Seq, Text};
use std::alloc::{AllocError, Global};

/// The last line of this text has no colon. Lines are counted from 1.
fn no_colon(text: &str) -> BadItem
    ensures { result ≡ record { line = length (lines text.now); why = BadWhy.NoColon } }
{
    BadItem {
        line: line_count(text),
        why: BadWhy::NoColon,
    }
}

/// What stands below the last line of a first part of the text. None if nothing does.
fn below<'a>(text: &'a str, part: &str) -> Option<&'a str>
    requires { IsFirstPart part.now text.now }
    ensures { MatchOption result (text.now ≡ part.now)
        (λ below. text.now ≡ part.now ++ 10 ∷ below.now) }
{
    if text.len() == part.len() {
        return None;
    }
    Some(&text[part.len() + 1..])
}

/// What stands above the last empty line, and the property lines below it. Goes from the last line upward.
pub(crate) fn cut_block(text: &str) -> Result<(Option<&str>, Option<&str>), BadItem>
    ensures { MatchResult result (λ parts. IsBlock (lines text.now) parts.0 parts.1)
        (λ bad. lines_fault (lines text.now) ≡ Some bad) }
{
    let mut rest = Some(text);
    while let Some(part) = rest {
        let (above, line) = last_line(part);
        if !has_text(line) {
            return Ok((above, below(text, part)));
        }
        if !has(line.as_bytes(), b':') {
            return Err(no_colon(part));
        }
        rest = above;
    }
    Ok((None, Some(text)))
}

fn read_pair(alloc: Global, line: &str) -> Result<Prop, AllocError>
    ensures { IfOk result (λ pair. pair ≡ pair_of line.now) }
{
    let (key, value) = pair_in(line);
    Ok(Prop {
        key: Text::of(alloc, key)?,
        value: Text::of(alloc, value)?,
    })
}

/// The pairs of the property lines, in their order.
pub(crate) fn read_pairs(alloc: Global, block: Option<&str>) -> Result<Seq<Prop>, AllocError>
    ensures { IfOk result (λ props. props ≡ map pair_of (lines_of block.entry)) }
{
    let mut props = Seq::new(alloc);
    let mut rest = block;
    while let Some(part) = rest {
        let (line, below) = first_line(part);
        props.push(read_pair(alloc, line)?)?;
        rest = below;
    }
    Ok(props)
}

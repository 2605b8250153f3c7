ghost use Rattle.std.specs.Prelude.{◌≡◌, List, ℕ, None, Some, drop, IfOk, option_map};
ghost use Rattle.item_text.specs.declared.item.Item.{Item};
ghost use Rattle.item_text.specs.Lines.{lines, joined};
ghost use Rattle.item_text.specs.Valid.{IsItem};
ghost use Rattle.item_text.specs.Grammar.{title_of, ReadsAs, first_fault, item_in};
ghost use Rattle.item_text.specs.Answers.{ReadsOrRefuses, IsOrMemory};
ghost use Rattle.item_text.specs.Steps.{lines_of};

use crate::bad_item::{BadItem, BadWhy, ItemErr};
use crate::block::{cut_block, read_pairs};
use crate::item::Item;
use crate::line::first_line;
use crate::type_value::type_refusal;
use jop_base::Text;
use std::alloc::{AllocError, Global};

/// What stands below the second line.
fn body_of(above: &str) -> &str
    ensures { result.now ≡ joined (drop 2 (lines above.now)) }
{
    match first_line(above).1 {
        None => "",
        Some(below) => match first_line(below).1 {
            None => "",
            Some(body) => body,
        },
    }
}

/// The title and the body that stand above the last empty line.
pub(crate) fn head_of(above: Option<&str>) -> (Option<&str>, &str)
    ensures title { option_map (λ title. title.now) result.0 ≡ title_of (lines_of above.entry) }
    ensures body { result.1.now ≡ joined (drop 2 (lines_of above.entry)) }
{
    match above {
        None => (None, ""),
        Some(above) => (Some(first_line(above).0), body_of(above)),
    }
}

fn owned(alloc: Global, text: Option<&str>) -> Result<Option<Text>, AllocError>
    ensures { IfOk result (λ owned. owned ≡ option_map (λ text. text.now) text.entry) }
{
    match text {
        None => Ok(None),
        Some(text) => Ok(Some(Text::of(alloc, text)?)),
    }
}

#[tactic(auto, unfolding(crate::specs::Answers::ReadsOrRefuses))]
fn read_text(alloc: Global, text: &str) -> Result<Item, ItemErr>
    ensures { ReadsOrRefuses text.now result }
{
    let (above, block) = cut_block(text)?;
    if let Some(bad) = type_refusal(text, block) {
        return Err(ItemErr::Bad(bad));
    }
    let (title, body) = head_of(above);
    Ok(Item {
        title: owned(alloc, title)?,
        body: Text::of(alloc, body)?,
        props: read_pairs(alloc, block)?,
    })
}

/// The bytes are no text.
pub(crate) fn not_text() -> ItemErr
    ensures { result ≡ ItemErr.Bad (record { line = 0; why = BadWhy.NotText }) }
{
    ItemErr::Bad(BadItem {
        line: 0,
        why: BadWhy::NotText,
    })
}

fn read_bytes(alloc: Global, bytes: &[u8]) -> Result<Item, ItemErr>
    ensures { ReadsOrRefuses bytes.now result }
{
    match std::str::from_utf8(bytes) {
        Ok(text) => read_text(alloc, text),
        Err(_) => Err(not_text()),
    }
}

/// The item whose text the bytes are, or the first refusal. It takes time linear in the bytes.
pub fn read_item(alloc: Global, bytes: &[u8]) -> Result<Item, ItemErr>
    ensures exact { ReadsOrRefuses bytes.now result }
    ensures item { IfOk result (λ item. item_in bytes.now ≡ Some item) }

    // No text is refused without cause, and no text reads as two items.
    ensures only { (item : Item) → ReadsAs bytes.now item → first_fault bytes.now ≡ None
        → IsOrMemory item result }

    ensures valid { IfOk result IsItem }
{
    read_bytes(alloc, bytes)
}

ghost use Rattle.std.specs.Prelude.{◌≡◌, ◌∷◌, ◌++◌, None, OnOk, IfOk, map, option_map};
ghost use Rattle.std.specs.List.{flat_map};
ghost use Rattle.item_text.specs.Lines.{joined};
ghost use Rattle.item_text.specs.Valid.{IsItem};
ghost use Rattle.item_text.specs.Grammar.{title_text, gap_behind, prop_text, written, ReadsAs, first_fault};

use crate::item::{Item, Prop};
use jop_base::{Bytes, Text};
use std::alloc::{AllocError, Global};

/// The title and two line feeds.
pub(crate) fn put_title(out: &mut Text, title: Option<&str>) -> Result<(), AllocError>
    ensures { OnOk result (out.new
        ≡ out.old ++ title_text (option_map (λ title. title.now) title.entry)) }
{
    match title {
        None => Ok(()),
        Some(title) => {
            out.append(title)?;
            out.append("\n\n")
        }
    }
}

fn title_of(item: &Item) -> Option<&str>
    ensures { option_map (λ title. title.now) result ≡ item.now.title }
{
    match &item.title {
        None => None,
        Some(title) => Some(title.as_str()),
    }
}

/// The two line feeds behind a body.
pub(crate) fn put_gap(out: &mut Text, body: &str) -> Result<(), AllocError>
    ensures { OnOk result (out.new ≡ out.old ++ gap_behind body.now) }
{
    if body.is_empty() {
        return Ok(());
    }
    out.append("\n\n")
}

fn put_prop(out: &mut Text, prop: &Prop) -> Result<(), AllocError>
    ensures { OnOk result (out.new ≡ out.old ++ prop_text prop.now) }
{
    out.append(prop.key.as_str())?;
    out.append(": ")?;
    out.append(prop.value.as_str())
}

fn put_others(out: &mut Text, props: &[Prop]) -> Result<(), AllocError>
    ensures { OnOk result (out.new ≡ out.old ++ flat_map (λ p. 10 ∷ prop_text p) props.now) }
{
    for prop in props {
        out.append("\n")?;
        put_prop(out, prop)?;
    }
    Ok(())
}

fn put_props(out: &mut Text, props: &[Prop]) -> Result<(), AllocError>
    ensures { OnOk result (out.new ≡ out.old ++ joined (map prop_text props.now)) }
{
    match props.split_first() {
        None => Ok(()),
        Some((first, others)) => {
            put_prop(out, first)?;
            put_others(out, others)
        }
    }
}

/// What stands before an item's body in its text, and what stands behind it. So a long body can be written without a
/// copy of it.
#[tactic(auto, unfolding(crate::specs::Grammar::written))]
pub fn write_around(alloc: Global, item: &Item) -> Result<(Text, Text), AllocError>
    ensures { IfOk result (λ around. around.0 ++ (item.now.body ++ around.1) ≡ written item.now) }
{
    let mut before = Text::new(alloc);
    put_title(&mut before, title_of(item))?;
    let mut behind = Text::new(alloc);
    put_gap(&mut behind, item.body.as_str())?;
    put_props(&mut behind, item.props.as_slice())?;
    Ok((before, behind))
}

fn text_of(alloc: Global, item: &Item) -> Result<Text, AllocError>
    ensures { IfOk result (λ text. text ≡ written item.now) }
{
    let (before, behind) = write_around(alloc, item)?;
    let around = before.len().saturating_add(behind.len());
    let mut out = Text::with_capacity(alloc, item.body.len().saturating_add(around))?;
    out.append(before.as_str())?;
    out.append(item.body.as_str())?;
    out.append(behind.as_str())?;
    Ok(out)
}

/// The text of an item: title, body and pairs with an empty line between each two, and no line feed at the end.
pub fn write_item(alloc: Global, item: &Item) -> Result<Bytes, AllocError>
    requires { IsItem item.now }
    ensures written { IfOk result (λ bytes. bytes ≡ written item.now) }
    ensures again { IfOk result (λ bytes. ReadsAs bytes item.now × (first_fault bytes ≡ None)) }
{
    let text = text_of(alloc, item)?;
    Ok(text.into_bytes())
}

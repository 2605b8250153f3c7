ghost use Rattle.std.specs.Prelude.{◌≡◌, ◌↔◌, [], false, IsTrue, IfSome, IfNone};
ghost use Rattle.std.specs.List.{AllByRecursion};
ghost use Rattle.item_text.specs.Lines.{has, trimmed};
ghost use Rattle.item_text.specs.Valid.{HasType, IsField, IsProp, IsItem};

use crate::item::{Item, Prop};
use crate::props::prop;
use crate::trim::trimmed;
use crate::type_value::is_type_value;
use jop_base::Text;

/// Whether the text has the byte.
pub(crate) fn has(text: &[u8], byte: u8) -> bool
    ensures { result ≡ has byte text.now }
{
    text.contains(&byte)
}

fn is_field(text: &Text) -> bool
    ensures { IsTrue result ↔ IsField text.now }
{
    let text = text.as_str();
    !has(text.as_bytes(), b'\n') && trimmed(text) == text
}

fn is_prop(prop: &Prop) -> bool
    ensures { IsTrue result ↔ IsProp prop.now }
{
    is_field(&prop.key) && !has(prop.key.as_slice(), b':') && is_field(&prop.value)
}

fn are_props(props: &[Prop]) -> bool
    ensures { IsTrue result ↔ AllByRecursion IsProp props.now }
{
    for prop in props {
        if !is_prop(prop) {
            return false;
        }
    }
    true
}

/// Whether the title is one line, or there is neither title nor body.
fn is_head(title: &Option<Text>, body: &Text) -> bool
    ensures { IsTrue result ↔ IfSome title.now (λ title. has 10 title ≡ false)
        × IfNone title.now (body.now ≡ []) }
{
    match title {
        None => body.is_empty(),
        Some(title) => !has(title.as_slice(), b'\n'),
    }
}

fn has_type(item: &Item) -> bool
    ensures { IsTrue result ↔ HasType item.now.props }
{
    match prop(item, b"type_") {
        None => false,
        Some(value) => is_type_value(value.as_slice()),
    }
}

/// Whether the item is valid, so that its text reads as the item again: the title is one line, and without a title
/// there is no body; keys and values are trimmed lines, and no key has a colon; the topmost `type_` is one to three
/// decimal digits.
pub fn is_item(item: &Item) -> bool
    ensures { IsTrue result ↔ IsItem item.now }
{
    is_head(&item.title, &item.body) && are_props(item.props.as_slice()) && has_type(item)
}

ghost use Rattle.std.specs.Prelude.{◌≡◌, ◌<◌, true, length, OnOk, OnErr, IfSome, option_map, position};
ghost use Rattle.item_text.specs.Props.{type_key, has_key, value_of};
ghost use Rattle.item_text.specs.Setting.{Sets};
ghost use Rattle.item_text.specs.Valid.{is_type_value, IsProp, IsItem};

use crate::item::{Item, Prop};
use jop_base::Text;
use std::alloc::{AllocError, Global};

/// The place of the topmost pair of the key.
pub(crate) fn place_of(props: &[Prop], key: &[u8]) -> Option<usize>
    ensures place { result ≡ position (has_key key.now) props.now }
    ensures within { IfSome result (λ place. place < length props.now) }
{
    props.iter().position(|prop| prop.key.as_slice() == key)
}

/// The topmost value of the key.
pub fn prop<'a>(item: &'a Item, key: &[u8]) -> Option<&'a Text>
    ensures { option_map (λ value. value.now) result ≡ value_of key.now item.now.props }
{
    let props = item.props.as_slice();
    let place = place_of(props, key)?;
    Some(&props[place].value)
}

/// Gives the key its value: in place of the topmost one, or else before the first `type_`.
pub fn set_prop(alloc: Global, item: &mut Item, key: &str, value: Text) -> Result<(), AllocError>
    requires { IsProp (record { key = key.now; value = value }) }

    ensures ok { OnOk result (Sets (record { key = key.now; value = value }) item.old item.new) }
    ensures err { OnErr result (item.new ≡ item.old) }

    // A `type_` of another form is set as it is, and the item isn't valid then.
    ensures valid { IsItem item.old → (key.now ≡ type_key → is_type_value value ≡ true)
        → IsItem item.new }
{
    let prop = Prop {
        key: Text::of(alloc, key)?,
        value,
    };
    put(item, prop)
}

/// Puts the pair in place of the topmost one of its key, or else before the first `type_`.
fn put(item: &mut Item, prop: Prop) -> Result<(), AllocError>
    ensures ok { OnOk result (Sets prop item.old item.new) }
    ensures err { OnErr result (item.new ≡ item.old) }
{
    if let Some(place) = place_of(item.props.as_slice(), prop.key.as_slice()) {
        item.props.set(place, prop);
        return Ok(());
    }
    let place = place_of(item.props.as_slice(), b"type_").unwrap_or(item.props.len());
    item.props.insert(place, prop)
}

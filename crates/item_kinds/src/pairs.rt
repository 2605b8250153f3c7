ghost use Rattle.std.specs.Prelude.{◌≡◌, IfOk, map};
ghost use Rattle.item_kinds.specs.Slots.{pair};

use item_text::Prop;
use jop_base::{Seq, Text};
use std::alloc::{AllocError, Global};

/// The pairs of these keys and values.
pub(crate) fn pairs<'x>(
    alloc: Global,
    texts: &[(&'x str, &'x str)],
) -> Result<Seq<Prop>, AllocError>
    ensures { IfOk result (λ props. props ≡ map (λ p. pair p.0.now p.1.now) texts.now) }
{
    let mut props = Seq::new(alloc);
    for (key, value) in texts {
        props.push(Prop {
            key: Text::of(alloc, key)?,
            value: Text::of(alloc, value)?,
        })?;
    }
    Ok(props)
}

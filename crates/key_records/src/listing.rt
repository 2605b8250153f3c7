ghost use Rattle.std.specs.Prelude.{◌≡◌, ◌++◌, IfOk, OnOk};
ghost use Rattle.key_records.specs.Listing.{key_line, key_lines, key_mark, keys_text};

use jop_base::{Bytes, Id, Text};
use std::alloc::{AllocError, Global};
use sync_info::{Info, KeyRecord};

/// A line for each key of an info, in their order: its id, and `active` if it is the one that seals, or else `-`.
pub fn list_keys(alloc: Global, info: &Info) -> Result<Bytes, AllocError>
    ensures { IfOk result (λ text. text ≡ keys_text info.now) }
{
    let mut text = Bytes::new(alloc);
    put_keys(&mut text, &info.active.value, info.keys.as_slice())?;
    Ok(text)
}

fn put_keys(text: &mut Bytes, active: &Text, keys: &[KeyRecord]) -> Result<(), AllocError>
    ensures { OnOk result (text.new ≡ text.old ++ key_lines active.now keys.now) }
{
    for known in keys {
        put_key(text, active, known)?;
    }
    Ok(())
}

fn put_key(text: &mut Bytes, active: &Text, known: &KeyRecord) -> Result<(), AllocError>
    ensures { OnOk result (text.new ≡ text.old ++ key_line active.now known.now) }
{
    text.append(known.id.as_str().as_bytes())?;
    text.append(key_mark(active, &known.id).as_bytes())
}

/// What stands behind the id of a key on its line.
fn key_mark(active: &Text, id: &Id) -> &'static str
    ensures { result.now ≡ key_mark active.now id.now }
{
    if active.as_slice() == id.as_str().as_bytes() {
        " active\n"
    } else {
        " -\n"
    }
}

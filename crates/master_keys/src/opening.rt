ghost use Rattle.std.specs.Prelude.{◌≡◌, true, Ok, IfOk, IfErr};
ghost use Rattle.std.specs.List.{AllPass};
ghost use Rattle.item_text.specs.Grammar.{item_in};
ghost use Rattle.item_text.specs.Props.{has_value, value_of};
ghost use Rattle.item_text.specs.Valid.{IsItem};
ghost use Rattle.jed_format.specs.Chunk.{is_chunk};
ghost use Rattle.jed_format.specs.Jed.{jed_in};
ghost use Rattle.jed_format.specs.Opening.{opened_text};
ghost use Rattle.master_keys.specs.Frames.{cipher_of};
ghost use Rattle.master_keys.specs.Opening.{has_id_of, inside, is_inside, open_by, opened_with, says_sealed};
ghost use Rattle.master_keys.specs.Refusing.{by_jed, IsMeant};

use crate::key_err::KeyErr;
use crate::ring::Ring;
use item_text::{Item, ItemErr, prop, read_item};
use jed_format::{Jed, open_text, read_jed};
use jop_base::{Bytes, Text};
use std::alloc::Global;

/// Whether the topmost value of the key is this one.
fn says(item: &Item, key: &[u8], value: &[u8]) -> bool
    ensures { result ≡ has_value key.now value.now item.now.props }
{
    match prop(item, key) {
        Some(own) => own.as_slice() == value,
        None => false,
    }
}

/// Whether an item has the id of another and isn't sealed.
fn is_inside(outer: &Item, inner: &Item) -> bool
    ensures { result ≡ is_inside outer.now inner.now }
{
    match prop(outer, b"id") {
        Some(id) => {
            says(inner, b"id", id.as_slice()) && !says(inner, b"encryption_applied", b"1")
        }
        None => false,
    }
}

/// The cipher text of a sealed item; one that is absent is an empty one.
fn cipher_of(item: &Item) -> &[u8]
    ensures { result.now ≡ cipher_of item.now }
{
    match prop(item, b"encryption_cipher_text") {
        Some(cipher) => cipher.as_slice(),
        None => b"",
    }
}

fn cipher_in(alloc: Global, outer: &Item) -> Result<Jed, KeyErr>
    ensures ok { IfOk result (λ cipher. jed_in (cipher_of outer.now) ≡ Ok cipher) }
    ensures err { IfErr result (IsMeant (by_jed (jed_in (cipher_of outer.now)))) }
    ensures valid { IfOk result (λ cipher. AllPass is_chunk cipher.chunks) }
{
    let cipher = read_jed(alloc, cipher_of(outer))?;
    Ok(cipher)
}

fn text_in(alloc: Global, cipher: &Jed, digits: &Bytes) -> Result<Text, KeyErr>
    requires { AllPass is_chunk cipher.now.chunks }
    ensures ok { IfOk result (λ text. opened_text digits.now cipher.now ≡ Ok text) }
    ensures err { IfErr result (IsMeant (by_jed (opened_text digits.now cipher.now))) }
{
    let text = open_text(alloc, cipher, digits.as_slice())?;
    Ok(text)
}

/// The item of a text that was opened.
fn inside(alloc: Global, outer: &Item, text: &Text) -> Result<Item, KeyErr>
    ensures ok { IfOk result (λ inner. inside outer.now (item_in text.now) ≡ Ok inner) }
    ensures err { IfErr result (IsMeant (inside outer.now (item_in text.now))) }
    ensures valid { IfOk result IsItem }
{
    match read_item(alloc, text.as_slice()) {
        Ok(inner) if is_inside(outer, &inner) => Ok(inner),
        Ok(_) => Err(KeyErr::BadItem),
        Err(ItemErr::Bad(_)) => Err(KeyErr::BadItem),
        Err(ItemErr::NoMemory) => Err(KeyErr::NoMemory),
    }
}

/// The item that is sealed in one. The refusals come in this order: `Jed` if the cipher text isn't readable; `NoKey`
/// if the key that it names isn't here; `Jed` (`BadTag` or `BadChunk`) if it doesn't open; `BadItem` if what it opens
/// to is no item text of the same id, or says that it is sealed.
pub fn open_item(alloc: Global, outer: &Item, ring: &mut Ring) -> Result<Item, KeyErr>
    ensures ok { IfOk result (λ inner. open_by ring.old outer.now ≡ Ok inner) }
    ensures err { IfErr result (IsMeant (open_by ring.old outer.now)) }
    ensures valid { IfOk result IsItem }
    ensures kept { ring.new ≡ ring.old }
{
    let cipher = cipher_in(alloc, outer)?;
    let Some(digits) = ring.digits(alloc, &cipher.key)? else {
        return Err(KeyErr::NoKey(Some(cipher.key)));
    };
    let text = text_in(alloc, &cipher, &digits)?;
    let inner = inside(alloc, outer, &text)?;
    Ok(inner)
}

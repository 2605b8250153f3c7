ghost use Rattle.std.specs.Prelude.{◌≡◌, ◌*◌, ℕ, List, Some, Ok, codes, true, false, length, IfOk, IfErr};
ghost use Rattle.item_text.specs.Grammar.{written};
ghost use Rattle.item_text.specs.Props.{value_of};
ghost use Rattle.item_text.specs.Valid.{IsItem};
ghost use Rattle.jed_format.specs.Jed.{jed_in};
ghost use Rattle.jed_format.specs.Write.{IsBrief, are_visible, jed_text};
ghost use Rattle.jed_sealing.specs.Drawing.{IsMadeOfDrawn};
ghost use Rattle.jed_sealing.specs.Spending.{Spends};
ghost use Rattle.jed_text.specs.Escape.{pieces_of};
ghost use Rattle.master_keys.specs.Opening.{open_by, says_sealed};
ghost use Rattle.master_keys.specs.Rings.{RingNow, digits_of};
ghost use Rattle.master_keys.specs.SealedUnder.{IsSealedItem, IsUnsealed, OpensUnder, cipher_text};

use crate::frame::{framed, text_of};
use crate::key_err::KeyErr;
use crate::ring::Ring;
use item_text::Item;
use jed_format::{Jed, write_jed};
use jed_sealing::{SealErr, seal_text};
use jop_base::{Id, Text};
use jop_outside::Entropy;
use std::alloc::{AllocError, Global};

/// The text of a sealed text.
fn written_jed(alloc: Global, jed: &Jed) -> Result<Text, AllocError>
    requires { IsBrief jed.now }
    ensures text { IfOk result (λ text. text ≡ jed_text jed.now) }
    ensures reads_back { IfOk result (λ text. jed_in text ≡ Ok jed.now) }
    ensures visible { IfOk result (λ text. are_visible text ≡ true) }
{
    let bytes = write_jed(alloc, jed)?;
    match Text::read(alloc, bytes.as_slice())? {
        Some(text) => Ok(text),
        None => unreachable!(),
    }
}

/// The cipher text of an item under a key.
fn cipher_text<N: Entropy>(
    alloc: Global,
    item: &Item,
    key: &Id,
    digits: &[u8],
    entropy: &mut N,
) -> Result<Text, SealErr>
    ensures cipher { let count = 24 * length (pieces_of (written item.now)) in
        IfOk result (λ text. IsMadeOfDrawn (cipher_text key.now digits.now item.now) count
        (N.state entropy.old).left text (N.state entropy.new).left) }
    ensures opens { IfOk result (OpensUnder key.now digits.now item.now) }
    ensures visible { IfOk result (λ text. are_visible text ≡ true) }
    ensures spends { Spends (N.state entropy.old).faults result (N.state entropy.new).faults }
{
    let text = text_of(alloc, item)?;
    let jed = seal_text(alloc, key, digits, &text, entropy)?;
    let cipher = written_jed(alloc, &jed)?;
    Ok(cipher)
}

/// Seals an item under the active key: it stands, with all its text, as the cipher text of an item without title and
/// body that has the pairs by which others place it. `NoKey` with the id of the active key exactly if that isn't here
/// and open; else `EntropyFault` if the random source failed.
pub fn seal_item<N: Entropy>(
    alloc: Global,
    item: &Item,
    ring: &mut Ring,
    entropy: &mut N,
) -> Result<Item, KeyErr>
    requires { IsItem item.now }
    ensures ok { IfOk result (λ outer. IsSealedItem ring.old item.now
        (N.state entropy.old).left outer (N.state entropy.new).left) }
    ensures valid { IfOk result IsItem }
    ensures sealed { IfOk result (λ outer. says_sealed outer ≡ true) }
    // A ring that has the key opens it to the item again, unless that says itself that it is sealed.
    ensures opens { IfOk result (λ outer. (other : RingNow) (key id : List ℕ)
        → ring.old.active ≡ Some key → digits_of other key ≡ digits_of ring.old key
        → value_of (codes "id") item.now.props ≡ Some id → says_sealed item.now ≡ false
        → open_by other outer ≡ Ok item.now) }

    ensures stays { IfOk result (λ outer. (N.state entropy.new).faults ≡ (N.state entropy.old).faults) }
    ensures err { IfErr result (λ e.
        IsUnsealed ring.old (N.state entropy.old).faults e (N.state entropy.new).faults) }
    ensures kept { ring.new ≡ ring.old }
{
    let (key, digits) = ring.active_key(alloc)?;
    let cipher = cipher_text(alloc, item, &key, digits.as_slice(), entropy)?;
    let outer = framed(alloc, item, cipher)?;
    Ok(outer)
}

//! Items and infos as texts.

ghost use Rattle.std.specs.Prelude.{◌≡◌, IfOk, None, Some};
ghost use Rattle.item_text.specs.Grammar.{item_in, written};
ghost use Rattle.item_text.specs.Valid.{IsItem};
ghost use Rattle.sync_info.specs.Info.{IsInfo};
ghost use Rattle.sync_info.specs.Read.{info_in};

use crate::record_err::RecordErr;
use item_text::{Item, ItemErr, read_item, reads_to_what_it_reads_as, write_item};
use jop_base::Bytes;
use std::alloc::{AllocError, Global};
use sync_info::{Info, InfoErr, read_info};

/// The text of an item.
pub(crate) fn item_text(alloc: Global, item: &Item) -> Result<Bytes, AllocError>
    requires { IsItem item.now }
    ensures text { IfOk result (λ text. text ≡ written item.now) }
    ensures back { IfOk result (λ text. item_in text ≡ Some item.now) }
{
    reads_to_what_it_reads_as();
    write_item(alloc, item)
}

/// The item that a text reads as.
pub(crate) fn item_of(alloc: Global, text: &Bytes) -> Result<Item, RecordErr>
    ensures ok { IfOk result (λ item. (item_in text.now ≡ Some item) × IsItem item) }
    ensures bad { result ≡ Err RecordErr.Bad → item_in text.now ≡ None }
{
    reads_to_what_it_reads_as();
    match read_item(alloc, text.as_slice()) {
        Ok(item) => Ok(item),
        Err(ItemErr::Bad(_)) => Err(RecordErr::Bad),
        Err(ItemErr::NoMemory) => Err(RecordErr::NoMemory),
    }
}

/// The info that a text reads as.
pub(crate) fn info_of(alloc: Global, text: &Bytes) -> Result<Info, RecordErr>
    ensures ok { IfOk result (λ info. (info_in text.now ≡ Some info) × IsInfo info) }
    ensures bad { result ≡ Err RecordErr.Bad → info_in text.now ≡ None }
{
    match read_info(alloc, text.as_slice()) {
        Ok(info) => Ok(info),
        Err(InfoErr::Bad(_)) => Err(RecordErr::Bad),
        Err(InfoErr::NoMemory) => Err(RecordErr::NoMemory),
    }
}

ghost use Rattle.std.specs.Prelude.{◌≡◌, ◌≤◌, ℕ, length, IfSome, IfNone, IfOk};
ghost use Rattle.jop_base.specs.Times.{last_time};
ghost use Rattle.item_text.specs.Valid.{IsField};
ghost use Rattle.item_kinds.specs.Times.{time_text, IsCount, IsTime};

use crate::number::read_number;
use crate::stamp::{read_stamp, stamp};
use jop_base::{MAX_TIME, Text};
use std::alloc::{AllocError, Global};

/// The time that one to fifteen digits count.
fn read_count(text: &[u8]) -> Option<u64>
    requires { length text.now ≤ 15 }
    ensures some { IfSome result (λ time. (time ≤ last_time) × IsCount text.now time) }
    ensures none { IfNone result ((time : ℕ) → time ≤ last_time → ¬ IsCount text.now time) }
{
    let time = read_number(text)?;
    if time <= MAX_TIME { Some(time) } else { None }
}

/// The time that a text gives, in milliseconds since the beginning of 1970: as `YYYY-MM-DDTHH:MM:SS.mmmZ` with a
/// date of the calendar from 1970 to 9999, or as one to fifteen digits. None exactly if it is no time.
pub fn read_time(text: &[u8]) -> Option<u64>
    ensures some { IfSome result (IsTime text.now) }
    ensures none { IfNone result ((time : ℕ) → ¬ IsTime text.now time) }
{
    if text.len() <= 15 {
        read_count(text)
    } else {
        read_stamp(text)
    }
}

/// The time as `YYYY-MM-DDTHH:MM:SS.mmmZ`, in UTC. It may be the value of a pair.
pub fn write_time(alloc: Global, time: u64) -> Result<Text, AllocError>
    requires { time ≤ last_time }
    ensures written { IfOk result (λ text. text ≡ time_text time) }
    ensures field { IfOk result IsField }
{
    match std::str::from_utf8(&stamp(time)) {
        Ok(text) => Text::of(alloc, text),
        Err(_) => unreachable!(),
    }
}

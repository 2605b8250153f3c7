ghost use Rattle.std.specs.Prelude.{◌≡◌, ◌≤◌, ◌<◌, ◌*◌, ℕ, pos, length, Some, IfSome, IfNone, IsSomeAnd};
ghost use Rattle.jop_base.specs.Times.{last_time};
ghost use Rattle.jiff.specs.Words.{epoch_day, time_nanos};
ghost use Rattle.item_kinds.specs.Calendar.{date_after};
ghost use Rattle.item_kinds.specs.Times.{date_text, clock_text, time_text};

use crate::digits::{four_digits, read_four, read_three, read_two, three_digits, two_digits};
use crate::moment::{moment_at, time_at};
use jiff::civil::{Date, Time};

/// The time as it is written.
pub(crate) fn stamp(time: u64) -> [u8; 24]
    requires { time ≤ last_time }
    ensures { result ≡ time_text time }
{
    let moment = moment_at(time);
    let [y1, y2, y3, y4] = four_digits(moment.year() as u16);
    let [m1, m2] = two_digits(moment.month() as u8);
    let [d1, d2] = two_digits(moment.day() as u8);
    let [h1, h2] = two_digits(moment.hour() as u8);
    let [n1, n2] = two_digits(moment.minute() as u8);
    let [s1, s2] = two_digits(moment.second() as u8);
    let [f1, f2, f3] = three_digits(moment.millisecond() as u16);
    [
        y1, y2, y3, y4, b'-', m1, m2, b'-', d1, d2, b'T', h1, h2, b':', n1, n2, b':', s1, s2, b'.',
        f1, f2, f3, b'Z',
    ]
}

/// The date that the digits of `YYYY-MM-DD` name, whatever stands between them.
fn read_date(text: &[u8]) -> Option<Date>
    requires { length text.now ≡ 10 }
    ensures { (n : ℕ) → n ≤ 2_932_896 → text.now ≡ date_text (date_after n)
        → IsSomeAnd result (λ date. epoch_day date ≡ pos n) }
{
    let year = read_four(&text[..4])?;
    let month = read_two(&text[5..7])?;
    let day = read_two(&text[8..])?;
    Date::new(year, month, day).ok()
}

/// The time of day that the digits of `HH:MM:SS.mmm` name, whatever stands between them.
fn read_clock(text: &[u8]) -> Option<Time>
    requires { length text.now ≡ 12 }
    ensures { (millis : ℕ) → millis < 86_400_000 → text.now ≡ clock_text millis
        → IsSomeAnd result (λ clock. time_nanos clock ≡ millis * 1_000_000) }
{
    let hour = read_two(&text[..2])?;
    let minute = read_two(&text[3..5])?;
    let second = read_two(&text[6..8])?;
    let milli = read_three(&text[9..])?;
    Time::new(hour, minute, second, milli * 1_000_000).ok()
}

/// The time that the digits of a stamp name, whatever stands between them.
fn named_time(text: &[u8]) -> Option<u64>
    ensures bound { IfSome result (λ time. time ≤ last_time) }
    ensures named { (time : ℕ) → time ≤ last_time → text.now ≡ time_text time → result ≡ Some time }
{
    if text.len() != 24 {
        return None;
    }
    let date = read_date(&text[..10])?;
    let clock = read_clock(&text[11..23])?;
    time_at(date.to_datetime(clock))
}

/// The time that is written so: the one that the digits name, if its stamp is this text.
pub(crate) fn read_stamp(text: &[u8]) -> Option<u64>
    ensures some { IfSome result (λ time. (time ≤ last_time) × (text.now ≡ time_text time)) }
    ensures none { IfNone result ((time : ℕ) → time ≤ last_time → ¬ (text.now ≡ time_text time)) }
{
    let time = named_time(text)?;
    if stamp(time).as_slice() == text {
        Some(time)
    } else {
        None
    }
}

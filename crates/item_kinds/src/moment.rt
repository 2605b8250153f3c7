ghost use Rattle.std.specs.Prelude.{◌≡◌, ◌≤◌, ◌*◌, ℕ, pos, Some, IfSome};
ghost use Rattle.jop_base.specs.Times.{last_time};
ghost use Rattle.jiff.specs.Words.{civil_nanos};
ghost use Rattle.item_kinds.specs.Moment.{ShowsDate};

use jiff::SignedDuration;
use jiff::civil::{DateTime, datetime};
use jop_base::MAX_TIME;

/// The beginning of 1970.
fn beginning() -> DateTime
    ensures { civil_nanos result ≡ pos 0 }
{
    datetime(1970, 1, 1, 0, 0, 0, 0)
}

/// What a calendar and a clock in UTC show at the time.
pub(crate) fn moment_at(time: u64) -> DateTime
    requires { time ≤ last_time }
    ensures { ShowsDate result time }
{
    match beginning().checked_add(SignedDuration::from_millis(time as i64)) {
        Ok(moment) => moment,
        Err(_) => unreachable!(),
    }
}

/// The time at which a calendar and a clock in UTC show this. None before 1970 and after 9999.
pub(crate) fn time_at(moment: DateTime) -> Option<u64>
    ensures bound { IfSome result (λ time. time ≤ last_time) }
    ensures time { (time : ℕ) → time ≤ last_time → civil_nanos moment ≡ pos (time * 1_000_000)
        → result ≡ Some time }
{
    let millis = moment.duration_since(beginning()).as_millis();
    let time = u64::try_from(millis).ok()?;
    if time <= MAX_TIME { Some(time) } else { None }
}

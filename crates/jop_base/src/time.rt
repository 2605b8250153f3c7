ghost use Rattle.std.specs.Prelude.{◌≤◌, ◌↔◌, IsTrue};
ghost use Rattle.jop_base.specs.Times.{last_time};

/// The last moment of the year 9999, in milliseconds since the beginning of 1970. No time is greater.
pub const MAX_TIME: u64 = 253_402_300_799_999;

/// Whether a number is a time: at most [`MAX_TIME`].
pub fn is_time(millis: u64) -> bool
    ensures { IsTrue result ↔ (millis ≤ last_time) }
{
    millis <= MAX_TIME
}

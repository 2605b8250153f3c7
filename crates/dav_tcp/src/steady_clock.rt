ghost use Rattle.std.specs.Prelude.{◌≡◌, ◌≤◌, IfSome};
ghost use Rattle.jop_base.specs.Times.{last_time};

use jop_base::MAX_TIME;
use jop_outside::{Failed, Faults};
use std::rt::Clock;

/// The system's clock that never goes back. It shows no date: its milliseconds count from a moment of
/// the system's own. It tells nothing of what it shows next.
#[derive(Drop)]
pub struct SteadyClock {
    rt: HostRuntime,
    faults: Faults,
}

impl SteadyClock {
    /// The clock. No fault is counted yet.
    pub fn new(rt: HostRuntime) -> SteadyClock
        ensures { result.faults ≡ 0 }
    {
        SteadyClock {
            rt,
            faults: Faults::new(),
        }
    }

    /// What it shows, in milliseconds. None past `MAX_TIME`, or if the system shows nothing.
    fn read(&self) -> Option<u64>
        ensures { IfSome result (λ now. now ≤ last_time) }
    {
        let since = self.rt.monotonic().ok()?;
        let millis = since.as_millis();
        if millis > MAX_TIME as u128 {
            return None;
        }
        Some(millis as u64)
    }
}

impl jop_outside::Clock for SteadyClock {
    ghost use Rattle.std.specs.Prelude.{None};

    ghost state = { λ c. record { next = None; faults = c.faults } };

    fn now(&mut self) -> Result<u64, Failed> {
        match self.read() {
            Some(now) => Ok(now),
            None => {
                self.faults.rise();
                Err(Failed)
            }
        }
    }
}

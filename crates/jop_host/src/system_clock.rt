ghost use Rattle.std.specs.Prelude.{◌≡◌, ◌≤◌, IfSome};
ghost use Rattle.jop_base.specs.Times.{last_time};

use jop_base::MAX_TIME;
use jop_outside::{Clock, Failed, Faults};
use std::time::SystemTime;

/// The system's clock. It tells nothing of what it shows next.
#[derive(Drop)]
pub struct SystemClock {
    rt: HostRuntime,
    faults: Faults,
}

impl SystemClock {
    /// The clock. No fault is counted yet.
    pub fn new(rt: HostRuntime) -> SystemClock
        ensures { result.faults ≡ 0 }
    {
        SystemClock {
            rt,
            faults: Faults::new(),
        }
    }

    /// The time, in milliseconds since 1970. None before 1970 and after `MAX_TIME`.
    fn read(&self) -> Option<u64>
        ensures { IfSome result (λ now. now ≤ last_time) }
    {
        let now = SystemTime::now(&self.rt).ok()?;
        let since = now.duration_since(SystemTime::UNIX_EPOCH).ok()?;
        let millis = since.as_millis();
        if millis > MAX_TIME as u128 {
            return None;
        }
        Some(millis as u64)
    }
}

impl Clock for SystemClock {
    ghost use Rattle.std.specs.Prelude.{None};

    ghost state = { λ c. record { next = None; faults = c.faults } };

    fn now(&mut self) -> Result<u64, Failed> {
        match self.read() {
            Some(now) => Ok(now),
            None => {
                self.faults.rise();
                Err(Failed)
            }
        }
    }
}

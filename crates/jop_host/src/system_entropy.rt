ghost use Rattle.std.specs.Prelude.{◌≡◌};

use jop_outside::{Entropy, Failed, Faults};
use std::random::RandomSource;

/// The system's source of random bytes. It tells nothing of what it gives next.
#[derive(Drop)]
pub struct SystemEntropy {
    rt: HostRuntime,
    faults: Faults,
}

impl SystemEntropy {
    /// The random source. No fault is counted yet.
    pub fn new(rt: HostRuntime) -> SystemEntropy
        ensures { result.faults ≡ 0 }
    {
        SystemEntropy {
            rt,
            faults: Faults::new(),
        }
    }
}

impl Entropy for SystemEntropy {
    ghost use Rattle.std.specs.Prelude.{None};

    ghost state = { λ s. record { left = None; faults = s.faults } };

    fn fill(&mut self, into: &mut [u8]) -> Result<(), Failed> {
        match self.rt.fill_bytes(into) {
            Ok(()) => Ok(()),
            Err(_) => {
                self.faults.rise();
                Err(Failed)
            }
        }
    }
}

ghost use Rattle.std.specs.Prelude.{◌≡◌, [], OnOk, OnErr};
ghost use Rattle.jop_outside.specs.Plan.{after_call, next_fate, fate_of, with_failing};

use std::alloc::{AllocError, Global};
use std::marker::Model;

/// Which calls of an object in memory are to fail. Calls are counted from 1; at 2^64 - 1 the count stays.
#[derive(Debug, Drop)]
pub struct Plan {
    made: u64,
    failing: Vec<(u64, bool)>,
}

impl Model for Plan {
    ghost use Rattle.jop_outside.specs.Plan.{Calls};

    ghost Value = { Calls };

    ghost view = { λ p. record { made = p.made; failing = p.failing.items } };
}

impl Plan {
    /// No call is to fail.
    pub fn new(alloc: Global) -> Plan
        ensures { result ≡ record { made = 0; failing = [] } }
    {
        Plan {
            made: 0,
            failing: Vec::new(alloc),
        }
    }

    /// The call of this number, from the first, is to fail, and whether it lands all the same. If a number is given
    /// twice, the earlier word counts, and the number of a call that was made changes nothing.
    pub fn fail(&mut self, nth: u64, landed: bool) -> Result<(), AllocError>
        ensures ok { OnOk result (self.new ≡ with_failing self.old nth landed) }
        ensures err { OnErr result (self.new ≡ self.old) }
    {
        self.failing.push((nth, landed))?;
        Ok(())
    }

    /// What is planned for the next call: None if it goes well, and else whether it lands though it fails.
    pub fn fate(&self) -> Option<bool>
        ensures { result ≡ next_fate self.now }
    {
        if self.made == u64::MAX {
            return None;
        }
        fate_of(self.failing.as_slice(), self.made + 1)
    }

    /// One call more was made.
    pub fn count_call(&mut self)
        ensures { self.new ≡ after_call self.old }
    {
        self.made = self.made.saturating_add(1);
    }
}

/// What is planned for the call of a number.
fn fate_of(failing: &[(u64, bool)], number: u64) -> Option<bool>
    ensures { result ≡ fate_of failing.now number }
{
    for (nth, landed) in failing {
        if *nth == number {
            return Some(*landed);
        }
    }
    None
}

ghost use Rattle.std.specs.Prelude.{◌≡◌, ◌≤◌};
ghost use Rattle.jop_outside.specs.Outside.{risen};

use std::marker::Model;

/// How often an object has failed. At 2^64 - 1 the count stays.
#[derive(Clone, Copy, Debug, PartialEq, Eq)]
pub struct Faults {
    count: u64,
}

impl Model for Faults {
    ghost use Rattle.std.specs.Prelude.{ℕ};

    ghost Value = { ℕ };

    ghost view = { λ f. f.count };

    ghost inverse = { λ n. record { count = n } };
}

impl Faults {
    /// It has never failed.
    pub fn new() -> Faults
        ensures { result ≡ 0 }
    {
        Faults { count: 0 }
    }

    /// It has failed once more.
    pub fn rise(&mut self)
        ensures risen { self.new ≡ risen self.old }
        ensures later { self.old ≤ self.new }
    {
        self.count = self.count.saturating_add(1);
    }

    pub fn count(&self) -> u64
        ensures { result ≡ self.now }
    {
        self.count
    }
}

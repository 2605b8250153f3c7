ghost use Rattle.std.specs.Prelude.{◌≡◌};
ghost use Rattle.jop_outside.specs.Random.{drawn_state, drawn_number};

/// A generator of numbers that look random and are the same for the same state, for work that is to be made again.
/// Nothing secret may rest on it.
#[derive(Clone, Copy, Debug, PartialEq, Eq)]
pub struct Draw {
    pub state: u64,
}

impl Draw {
    /// The next number, below 2^31.
    pub fn next(&mut self) -> u64
        ensures state { self.new.state ≡ drawn_state self.old.state }
        ensures number { result ≡ drawn_number self.new.state }
    {
        self.state = self
            .state
            .wrapping_mul(6_364_136_223_846_793_005)
            .wrapping_add(1_442_695_040_888_963_407);
        self.state >> 33
    }
}

ghost use Rattle.std.specs.Prelude.{◌≡◌, length};
ghost use Rattle.jop_outside.specs.Outside.{HasCause};
ghost use Rattle.jop_outside.specs.Random.{EntropyNow, Fills};

use crate::failed::Failed;

/// What gives random bytes: the system's source, or a list in memory.
pub trait Entropy: Drop {
    /// What it gives next, if it tells, and how often it has failed.
    ghost state: { Self → EntropyNow };

    /// Fills the slice. After `Failed` no bytes were given, and the slice may hold anything. A source that tells what
    /// is left of it fails if that is too little.
    fn fill(&mut self, into: &mut [u8]) -> Result<(), Failed>
        ensures length { length into.new ≡ length into.old }
        ensures fills { Fills (state self.old).left result into.new (state self.new).left }
        ensures cause { HasCause (state self.old).faults result (state self.new).faults };
}

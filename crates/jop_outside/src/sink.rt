ghost use Rattle.std.specs.Prelude.{◌<◌, ◌≤◌, IfOk, length};
ghost use Rattle.jop_outside.specs.Outside.{SinkNow, HasCause, Writes};

use crate::failed::Failed;

/// What takes bytes: standard output, a file, a list in memory.
pub trait Sink {
    /// What was written to it, and how often it has failed.
    ghost state: { Self → SinkNow };

    /// Takes a piece from the start of these bytes, and answers how long that piece is: at least one byte if there is
    /// one. After `Failed` nothing of them was written.
    fn write(&mut self, from: &[u8]) -> Result<usize, Failed>
        ensures within { IfOk result (λ count. count ≤ length from.now) }
        ensures progress { IfOk result (λ count. 0 < length from.now → 0 < count) }
        ensures written { Writes (state self.old).written from.now result (state self.new).written }
        ensures cause { HasCause (state self.old).faults result (state self.new).faults };
}

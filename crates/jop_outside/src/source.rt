ghost use Rattle.std.specs.Prelude.{◌≡◌, ◌≤◌, IfOk, length};
ghost use Rattle.jop_outside.specs.Outside.{SourceNow, HasCause, Reads};

use crate::failed::Failed;

/// What gives bytes: standard input, a file, a list in memory.
pub trait Source {
    /// What is left of it, and how often it has failed.
    ghost state: { Self → SourceNow };

    /// Puts a piece of what is left at the start of this slice, and answers how long that piece is. Into a slice that
    /// isn't empty 0 means the end of the input; a source that doesn't tell what is left promises no more of it than
    /// that. After `Failed` nothing was read, and the slice may hold anything.
    fn read(&mut self, into: &mut [u8]) -> Result<usize, Failed>
        ensures within { IfOk result (λ count. count ≤ length into.old) }
        ensures length { length into.new ≡ length into.old }
        ensures read { Reads (state self.old).left result into.new (state self.new).left }
        ensures cause { HasCause (state self.old).faults result (state self.new).faults };
}

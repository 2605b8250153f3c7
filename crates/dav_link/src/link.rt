ghost use Rattle.std.specs.Prelude.{◌≡◌, ◌<◌, ◌≤◌, IfOk, length};
ghost use Rattle.jop_outside.specs.Outside.{HasCause, Reads, Writes, risen};
ghost use Rattle.dav_link.specs.Links.{LinkNow, ReadsAlone, WritesAlone, OpensAlone};

use jop_outside::Failed;

/// A connection to another program, which is opened, and then read and written.
pub trait Link: Drop {
    /// What is left to read of it and what was written to it, how often it was opened, and how
    /// often it has failed.
    ghost state: { Self → LinkNow };

    /// Opens it, also if it was open: anew then. What is left and what was written stay.
    fn open(&mut self) -> Result<(), Failed>
        ensures alone { OpensAlone (state self.old) (state self.new) }
        ensures opened { (state self.new).opened ≡ risen (state self.old).opened }
        ensures cause { HasCause (state self.old).faults result (state self.new).faults };

    /// Puts a piece of what is left at the start of this slice, and answers how long that piece is.
    /// Into a slice that isn't empty 0 means the end. After `Failed` nothing was read, and the
    /// slice may hold anything.
    fn read(&mut self, into: &mut [u8]) -> Result<usize, Failed>
        ensures within { IfOk result (λ count. count ≤ length into.old) }
        ensures length { length into.new ≡ length into.old }
        ensures read { Reads (state self.old).left result into.new (state self.new).left }
        ensures alone { ReadsAlone (state self.old) (state self.new) }
        ensures cause { HasCause (state self.old).faults result (state self.new).faults };

    /// Takes a piece from the start of these bytes, and answers how long that piece is: at least
    /// one byte if there is one. After `Failed` nothing of them counts as written.
    fn write(&mut self, from: &[u8]) -> Result<usize, Failed>
        ensures within { IfOk result (λ count. count ≤ length from.now) }
        ensures progress { IfOk result (λ count. 0 < length from.now → 0 < count) }
        ensures written { Writes (state self.old).written from.now result (state self.new).written }
        ensures alone { WritesAlone (state self.old) (state self.new) }
        ensures cause { HasCause (state self.old).faults result (state self.new).faults };
}

ghost use Rattle.std.specs.Prelude.{◌≡◌, ◌≤◌, None, IfOk, length};
ghost use Rattle.jop_outside.specs.Outside.{HasRisen};

use jop_outside::{Failed, Faults, Source};
use std::io;
use std::io::{ErrorKind, Read};

/// A stream of the system that is read. It tells nothing of what is left.
#[derive(Drop)]
pub struct ReaderSource<R> {
    reader: R,
    faults: Faults,
}

impl<R: Read> ReaderSource<R> {
    /// A source over this stream. No fault is counted yet.
    pub fn new(reader: R) -> ReaderSource<R>
        ensures { result.faults ≡ 0 }
    {
        ReaderSource {
            reader,
            faults: Faults::new(),
        }
    }

    /// Counts a fault.
    fn fault(&mut self) -> Failed
        ensures rose { HasRisen self.old.faults self.new.faults }
        ensures later { self.old.faults ≤ self.new.faults }
    {
        self.faults.rise();
        Failed
    }
}

impl<R: Read> Source for ReaderSource<R> {
    ghost state = { λ s. record { left = None; faults = s.faults } };

    fn read(&mut self, into: &mut [u8]) -> Result<usize, Failed> {
        match read_on(&mut self.reader, into) {
            Ok(count) => Ok(count),
            Err(_) => Err(self.fault()),
        }
    }
}

/// Reads, and again each time that a signal interrupts it.
fn read_on<R: Read>(reader: &mut R, into: &mut [u8]) -> io::Result<usize>
    ensures within { IfOk result (λ count. count ≤ length into.old) }
    ensures length { length into.new ≡ length into.old }
{
    for _ in 0..u64::MAX {
        match reader.read(into) {
            Err(error) if error.kind() == ErrorKind::Interrupted => {}
            read => return read,
        }
    }
    Err(io::Error::from(ErrorKind::Interrupted))
}

ghost use Rattle.std.specs.Prelude.{◌≡◌, ◌≤◌, None, IfOk, length};
ghost use Rattle.jop_outside.specs.Outside.{HasRisen};

use jop_outside::{Failed, Faults, Sink};
use std::io;
use std::io::{ErrorKind, Write};

/// A stream of the system. It tells nothing of what was written.
#[derive(Drop)]
pub struct WriterSink<W> {
    writer: W,
    faults: Faults,
}

impl<W: Write> WriterSink<W> {
    /// A sink over this stream. No fault is counted yet.
    pub fn new(writer: W) -> WriterSink<W>
        ensures { result.faults ≡ 0 }
    {
        WriterSink {
            writer,
            faults: Faults::new(),
        }
    }

    /// Counts a fault.
    fn fault(&mut self) -> Failed
        ensures rose { HasRisen self.old.faults self.new.faults }
        ensures later { self.old.faults ≤ self.new.faults }
    {
        self.faults.rise();
        Failed
    }
}

impl<W: Write> Sink for WriterSink<W> {
    ghost state = { λ s. record { written = None; faults = s.faults } };

    // A writer that takes nothing of a piece has failed too.
    fn write(&mut self, from: &[u8]) -> Result<usize, Failed> {
        match write_on(&mut self.writer, from) {
            Ok(0) if !from.is_empty() => Err(self.fault()),
            Ok(count) => Ok(count),
            Err(_) => Err(self.fault()),
        }
    }
}

/// Writes, and again each time that a signal interrupts it.
fn write_on<W: Write>(writer: &mut W, from: &[u8]) -> io::Result<usize>
    ensures within { IfOk result (λ count. count ≤ length from.now) }
{
    for _ in 0..u64::MAX {
        match writer.write(from) {
            Err(error) if error.kind() == ErrorKind::Interrupted => {}
            written => return written,
        }
    }
    Err(io::Error::from(ErrorKind::Interrupted))
}

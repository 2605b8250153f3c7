ghost use Rattle.std.specs.Prelude.{◌≡◌, ◌≤◌, None, IfSome};
ghost use Rattle.jop_outside.specs.Outside.{HasRisen};

use crate::stream::{prepare, read_on, write_on};
use dav_link::Link;
use jop_outside::{Failed, Faults};
use std::io::{Read, Write};
use std::net::OpenStream;

/// A connection that a server accepted. To open it again is a fault.
#[derive(Drop)]
pub struct StreamLink<S> {
    stream: S,
    opened: u64,
    faults: Faults,
}

impl<S: Read + Write + OpenStream + Drop> StreamLink<S> {
    /// A link over a stream, each of whose reads and writes waits at most 20 seconds. None if that can't be set.
    pub fn new(stream: S) -> Option<StreamLink<S>>
        ensures { IfSome result (λ link. (link.opened ≡ 0) × (link.faults ≡ 0)) }
    {
        match prepare(&stream) {
            Ok(()) => Some(StreamLink {
                stream,
                opened: 0,
                faults: Faults::new(),
            }),
            Err(_) => None,
        }
    }

    /// Counts a fault.
    fn fault(&mut self) -> Failed
        ensures rose { HasRisen self.old.faults self.new.faults }
        ensures later { self.old.faults ≤ self.new.faults }
        ensures opened { self.new.opened ≡ self.old.opened }
    {
        self.faults.rise();
        Failed
    }
}

impl<S: Read + Write + OpenStream + Drop> Link for StreamLink<S> {
    ghost state = { λ l. record {
      left = None;
      written = None;
      opened = l.opened;
      faults = l.faults;
    } };

    fn open(&mut self) -> Result<(), Failed> {
        self.opened = self.opened.saturating_add(1);
        Err(self.fault())
    }

    fn read(&mut self, into: &mut [u8]) -> Result<usize, Failed> {
        match read_on(&mut self.stream, into) {
            Ok(count) => Ok(count),
            Err(_) => Err(self.fault()),
        }
    }

    // A stream that takes nothing of a piece has failed too.
    fn write(&mut self, from: &[u8]) -> Result<usize, Failed> {
        match write_on(&mut self.stream, from) {
            Ok(0) if !from.is_empty() => Err(self.fault()),
            Ok(count) => Ok(count),
            Err(_) => Err(self.fault()),
        }
    }
}

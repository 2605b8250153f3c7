ghost use Rattle.std.specs.Prelude.{None};

use dav_link::{Link, MemLink};
use jop_outside::Failed;

/// A link that gives at most so many bytes a read, and one at least; it takes as many a write. It counts
/// how often it is read and written.
#[derive(Drop)]
pub(crate) struct DripLink {
    pub(crate) link: MemLink,
    size: usize,
    pub(crate) reads: u64,
    pub(crate) writes: u64,
}

impl DripLink {
    pub(crate) fn new(link: MemLink, size: usize) -> DripLink {
        DripLink {
            link,
            size,
            reads: 0,
            writes: 0,
        }
    }
}

impl Link for DripLink {
    ghost use Rattle.dav_link.specs.Memory.{link_of};

    ghost state = { λ d. link_of d.link };

    fn open(&mut self) -> Result<(), Failed> {
        self.link.open()
    }

    fn read(&mut self, into: &mut [u8]) -> Result<usize, Failed> {
        self.reads = self.reads.saturating_add(1);
        let size = self.size.max(1);
        if into.len() <= size {
            return self.link.read(into);
        }
        self.link.read(&mut into[..size])
    }

    fn write(&mut self, from: &[u8]) -> Result<usize, Failed> {
        self.writes = self.writes.saturating_add(1);
        let size = self.size.max(1);
        if from.len() <= size {
            return self.link.write(from);
        }
        self.link.write(&from[..size])
    }
}

use crate::drawn::Source;
use crate::file::{clear, path};
use crate::trouble::Trouble;
use jop_base::Text;
use keeper_records::MemRecords;

/// Records in memory and in a file, to which the same is drawn.
pub(crate) struct Work {
    pub source: Source,
    pub memory: MemRecords,
    pub path: Text,
}

// Written out, so that each end of its owners calls this: a derived one is written out at each end.
impl Drop for Work {
    fn drop(self) {
        let Work {
            source: _,
            memory: _,
            path: _,
        } = self;
    }
}

impl Work {
    pub(crate) fn new(rt: &HostRuntime, seed: u64) -> Result<Work, Trouble> {
        clear(rt)?;
        let source = Source::new(rt.alloc(), seed)?;
        let path = path(rt)?;
        Ok(Work {
            source,
            memory: MemRecords::new(rt.alloc()),
            path,
        })
    }
}

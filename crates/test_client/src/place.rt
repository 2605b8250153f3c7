use crate::broken_off::BrokenOff;
use crate::files::{Text, holds, target_of};
use crate::parts::Part;
use crate::shown::{Standing, counts};
use crate::step::Step;
use crate::worked::Client;
use jop_target::MemTarget;
use std::alloc::Global;

/// The id of a place's client.
pub const OWN: &str = "11111111111111111111111111111111";

/// A client, and the target of its sessions.
pub struct Place {
    pub client: Client,
    pub target: MemTarget,
}

// Written out, as that of a client is.
impl Drop for Place {
    fn drop(self) {
        let Place {
            client: _,
            target: _,
        } = self;
    }
}

impl Place {
    /// The client has done these steps, and the target holds these items' files.
    pub fn new(alloc: Global, steps: &[Step], files: &[Text]) -> Result<Place, BrokenOff> {
        let client = Client::after(alloc, OWN, steps)?;
        let target = target_of(alloc, files)?;
        Ok(Place { client, target })
    }

    /// How many items a session puts, removes, takes, lets go, copies and can't read.
    pub fn counts(&mut self, alloc: Global, part: Part) -> Result<[u64; 6], BrokenOff> {
        let report = self.client.sync(alloc, &mut self.target, part)?;
        Ok(counts(&report))
    }

    /// Whether a session breaks off, and another, which is made next, doesn't.
    pub fn breaks_off_once(&mut self, alloc: Global, part: Part) -> bool {
        let broken_off = self.counts(alloc, part);
        broken_off.is_err() && self.counts(alloc, part).is_ok()
    }

    /// Whether the client's tables are so.
    pub fn has(&self, alloc: Global, standing: &Standing) -> Result<bool, BrokenOff> {
        standing.is_of(alloc, self.client.keeper.tables())
    }

    /// Whether the target holds these items' files and its lock, and nothing else.
    pub fn holds_alone(&self, files: &[Text]) -> Result<bool, BrokenOff> {
        let tree = self.target.tree();
        for (id, text) in files {
            if !holds(tree, id, Some(text))? {
                return Ok(false);
            }
        }
        Ok(tree.files.len() as u64 == files.len() as u64 + 1)
    }
}

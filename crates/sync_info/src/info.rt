ghost use Rattle.std.specs.Prelude.{◌≡◌, ◌↔◌, IsTrue};
ghost use Rattle.sync_info.specs.Info.{IsInfo, new_info};

use crate::key_record::KeyRecord;
use crate::member::Member;
use crate::timed::Timed;
use jop_base::{Copied, Seq, Text};
use std::alloc::{AllocError, Global};

/// The settings, keys and version of a target.
#[derive(Debug, PartialEq, Eq, Drop)]
pub struct Info {
    pub version: u64,
    /// Whether items are sealed before they are uploaded.
    pub e2ee: Timed<bool>,
    /// The id of the key that items are sealed with, or empty.
    pub active: Timed<Text>,
    pub keys: Seq<KeyRecord>,
    /// The other members, in the order of their names.
    pub others: Seq<Member>,
}

impl Info {
    /// The info of a target that holds nothing yet.
    pub fn new(alloc: Global, version: u64) -> Info
        ensures info { result ≡ new_info version }
        ensures valid { IsInfo result }
    {
        Info {
            version,
            e2ee: Timed {
                value: false,
                updated: 0,
            },
            active: Timed {
                value: Text::new(alloc),
                updated: 0,
            },
            keys: Seq::new(alloc),
            others: Seq::new(alloc),
        }
    }

    /// Whether it is this one, in all that it holds.
    pub fn is_same(&self, other: &Info) -> bool
        ensures { IsTrue result ↔ (self.now ≡ other.now) }
    {
        self == other
    }
}

impl Copied for Info {
    fn copy(&self, alloc: Global) -> Result<Info, AllocError> {
        Ok(Info {
            version: self.version,
            e2ee: self.e2ee,
            active: self.active.copy(alloc)?,
            keys: self.keys.copy(alloc)?,
            others: self.others.copy(alloc)?,
        })
    }
}

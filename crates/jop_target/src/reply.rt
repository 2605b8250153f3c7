ghost use Rattle.std.specs.Prelude.{◌≡◌};
ghost use Rattle.jop_target.specs.Trail.{moment_of};

use jop_base::{Bytes, Copied, Path, Seq};
use std::alloc::{AllocError, Global};
use std::fmt;

/// A file of a listing, and when it was written, in milliseconds since 1970.
#[derive(Clone, Copy, Debug, PartialEq, Eq)]
pub struct Entry {
    pub path: Path,
    pub stamp: u64,
}

/// The files of a folder at a moment, in milliseconds since 1970.
#[derive(Debug, PartialEq, Eq, Drop)]
pub struct Listing {
    pub now: u64,
    pub entries: Seq<Entry>,
}

/// What a target answers. Each `now` is a moment by the target's clock, in milliseconds since 1970,
/// and each `len` a number of bytes.
#[derive(Debug, PartialEq, Eq, Drop)]
pub enum Reply {
    Listed(Listing),
    Got { now: u64, content: Bytes },
    GotBlob { now: u64, len: u64 },
    Absent { now: u64 },
    Done { now: u64 },
    /// The call failed, though it may have landed.
    Failed,
    TooLarge { len: u64 },
}

impl Reply {
    /// The moment that the reply tells, if any.
    pub fn moment(&self) -> Option<u64>
        ensures { result ≡ moment_of self.now }
    {
        match self {
            Reply::Listed(listing) => Some(listing.now),
            Reply::Got { now, content: _ } => Some(*now),
            Reply::GotBlob { now, len: _ } => Some(*now),
            Reply::Absent { now } => Some(*now),
            Reply::Done { now } => Some(*now),
            Reply::Failed | Reply::TooLarge { len: _ } => None,
        }
    }
}

impl Copied for Entry {
    fn copy(&self, _alloc: Global) -> Result<Entry, AllocError> {
        Ok(*self)
    }
}

impl Copied for Listing {
    fn copy(&self, alloc: Global) -> Result<Listing, AllocError> {
        Ok(Listing {
            now: self.now,
            entries: self.entries.copy(alloc)?,
        })
    }
}

impl Copied for Reply {
    fn copy(&self, alloc: Global) -> Result<Reply, AllocError> {
        match self {
            Reply::Listed(listing) => Ok(Reply::Listed(listing.copy(alloc)?)),
            Reply::Got { now, content } => Ok(Reply::Got {
                now: *now,
                content: content.copy(alloc)?,
            }),
            Reply::GotBlob { now, len } => Ok(Reply::GotBlob {
                now: *now,
                len: *len,
            }),
            Reply::Absent { now } => Ok(Reply::Absent { now: *now }),
            Reply::Done { now } => Ok(Reply::Done { now: *now }),
            Reply::Failed => Ok(Reply::Failed),
            Reply::TooLarge { len } => Ok(Reply::TooLarge { len: *len }),
        }
    }
}

impl fmt::Display for Entry {
    ghost use Rattle.std.specs.Prelude.{Some};
    ghost use Rattle.jop_target.specs.Texts.{entry_text};

    ghost output = { λ x. Some (entry_text x) };

    fn fmt<W: fmt::Write>(&self, f: &mut fmt::Formatter<W>) -> fmt::Result {
        let path = self.path;
        let stamp = self.stamp;
        write!(f, "{path} of {stamp}")
    }
}

impl fmt::Display for Listing {
    ghost use Rattle.std.specs.Prelude.{Some};
    ghost use Rattle.jop_target.specs.Texts.{listing_text};

    ghost output = { λ x. Some (listing_text x) };

    fn fmt<W: fmt::Write>(&self, f: &mut fmt::Formatter<W>) -> fmt::Result {
        let now = self.now;
        write!(f, "at {now}")?;
        for entry in self.entries.as_slice() {
            write!(f, ", {entry}")?;
        }
        Ok(())
    }
}

impl fmt::Display for Reply {
    ghost use Rattle.std.specs.Prelude.{Some};
    ghost use Rattle.jop_target.specs.Texts.{reply_text};

    ghost output = { λ x. Some (reply_text x) };

    fn fmt<W: fmt::Write>(&self, f: &mut fmt::Formatter<W>) -> fmt::Result {
        match self {
            Reply::Listed(listing) => write!(f, "listed {listing}"),
            Reply::Got { now, content } => {
                let len = content.len();
                write!(f, "got {len} bytes at {now}")
            }
            Reply::GotBlob { now, len } => write!(f, "got blob of {len} bytes at {now}"),
            Reply::Absent { now } => write!(f, "absent at {now}"),
            Reply::Done { now } => write!(f, "done at {now}"),
            Reply::Failed => f.write_str("failed"),
            Reply::TooLarge { len } => write!(f, "too large, {len} bytes"),
        }
    }
}

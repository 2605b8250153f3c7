ghost use Rattle.std.specs.Prelude.{◌≡◌, false};
ghost use Rattle.jop_outside.specs.Outside.{risen};
ghost use Rattle.jop_watch.specs.Progress.{no_progress, progress_after};

use crate::waiting::Waiting;
use jop_base::{Dir, Path};
use jop_target::{Call, Reply};
use std::fmt;

/// How far a session has come. At 2^64 - 1 a count stays.
#[derive(Clone, Copy, Debug, PartialEq, Eq)]
pub struct Progress {
    pub waiting: Waiting,
    pub uploaded: u64,
    pub deleted: u64,
    /// Whether the root was listed: then what is got is what others have put.
    pub listed: bool,
    pub received: u64,
}

impl Progress {
    /// Nothing was done yet.
    pub fn new() -> Progress
        ensures { result ≡ no_progress }
    {
        Progress {
            waiting: Waiting::none(),
            uploaded: 0,
            deleted: 0,
            listed: false,
            received: 0,
        }
    }

    /// How far it has come once this call has this reply.
    pub fn after(&mut self, call: &Call, reply: &Reply)
        ensures { self.new ≡ progress_after self.old call.now reply.now }
    {
        match (call, reply) {
            (Call::List(Dir::Root), Reply::Listed(_)) => self.listed = true,
            (Call::Put(Path::Item(_), _), Reply::Done { now: _ }) => self.uploaded = more(
                self.uploaded,
            ),
            (Call::Delete(Path::Item(_)), Reply::Done { now: _ }) => self.deleted = more(
                self.deleted,
            ),
            (Call::Get(Path::Item(_)), Reply::Got { now: _, content: _ }) if self.listed => {
                self.received = more(self.received);
            }
            _ => {}
        }
    }
}

fn more(count: u64) -> u64
    ensures { result ≡ risen count }
{
    count.saturating_add(1)
}

impl fmt::Display for Progress {
    ghost use Rattle.std.specs.Prelude.{Some};
    ghost use Rattle.jop_watch.specs.Progress.{progress_text};

    ghost output = { λ x. Some (progress_text x) };

    fn fmt<W: fmt::Write>(&self, f: &mut fmt::Formatter<W>) -> fmt::Result {
        let (uploaded, deleted, received) = (self.uploaded, self.deleted, self.received);
        let (rows, deletions) = (self.waiting.rows, self.waiting.deletions);
        if self.listed {
            write!(f, "received {received}")
        } else if deleted > 0 {
            write!(f, "deleted {deleted} of {deletions}")
        } else {
            write!(f, "uploaded {uploaded} of {rows}")
        }
    }
}

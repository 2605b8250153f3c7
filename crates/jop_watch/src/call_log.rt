ghost use Rattle.std.specs.Prelude.{◌≡◌, IfOk};
ghost use Rattle.std.specs.String.{string_bytes};
ghost use Rattle.jop_watch.specs.Watching.{log_line};

use crate::waiting::Waiting;
use crate::watcher::Watcher;
use jop_outside::{Sink, write_whole};
use jop_target::{Call, Reply};
use std::alloc::{AllocError, Global};

/// The calls of a run, each on a line with its reply, written when it is answered. Of a text there is the number of its
/// bytes, and of a listing that of its files. What can't be written is passed over.
#[derive(Drop)]
pub struct CallLog<S: Sink + Drop> {
    sink: S,
}

impl<S: Sink + Drop> CallLog<S> {
    /// Nothing is written yet.
    pub fn new(sink: S) -> CallLog<S>
        ensures { result ≡ record { sink = sink } }
    {
        CallLog { sink }
    }
}

impl<S: Sink + Drop> Watcher for CallLog<S> {
    ghost use Rattle.jop_watch.specs.Watching.{Logs};

    ghost hears = { λ old waiting call reply new.
        Logs (S.state old.sink) call reply (S.state new.sink) };

    fn heard(&mut self, alloc: Global, _waiting: Waiting, call: &Call, reply: &Reply) {
        if let Ok(line) = line_of(alloc, call, reply) {
            let _ = write_whole(&mut self.sink, line.as_bytes());
        }
    }
}

fn line_of(alloc: Global, call: &Call, reply: &Reply) -> Result<String, AllocError>
    ensures { IfOk result (λ line. string_bytes line ≡ log_line call.now reply.now) }
{
    match reply {
        Reply::Listed(listing) => {
            let (now, count) = (listing.now, listing.entries.len());
            format!(in alloc; "{call}: listed {count} files at {now}\n")
        }
        _ => format!(in alloc; "{call}: {reply}\n"),
    }
}

ghost use Rattle.std.specs.Prelude.{◌≡◌};
ghost use Rattle.jop_target.specs.declared.call.Call.{Call};
ghost use Rattle.jop_target.specs.declared.reply.Reply.{Reply};
ghost use Rattle.jop_watch.specs.declared.waiting.Waiting.{Waiting};

use crate::waiting::Waiting;
use jop_target::{Call, Reply};
use std::alloc::Global;

/// Who is told of the calls on a target.
pub trait Watcher: Drop {
    /// What comes of it when it is told: from the first state to the last.
    ghost hears: { Self → Waiting → Call → Reply → Self → Type 0 };

    /// The target was called, and this is its reply. So much waited when the tables were read.
    fn heard(&mut self, alloc: Global, waiting: Waiting, call: &Call, reply: &Reply)
        ensures { hears self.old waiting call.now reply.now self.new };
}

impl<W: Watcher> Watcher for &mut W {
    ghost hears = { λ old waiting call reply new. W.hears old.now waiting call reply new.now };

    fn heard(&mut self, alloc: Global, waiting: Waiting, call: &Call, reply: &Reply) {
        (**self).heard(alloc, waiting, call, reply);
    }
}

/// Nobody.
#[derive(Drop)]
pub struct Nobody;

impl Watcher for Nobody {
    ghost hears = { λ old waiting call reply new. new ≡ old };

    fn heard(&mut self, _alloc: Global, _waiting: Waiting, _call: &Call, _reply: &Reply) {}
}

/// Nobody, or somebody.
impl<W: Watcher> Watcher for Option<W> {
    ghost use Rattle.jop_watch.specs.Watching.{IfThere};

    ghost hears = { λ old waiting call reply.
        IfThere (λ before after. W.hears before waiting call reply after) old };

    fn heard(&mut self, alloc: Global, waiting: Waiting, call: &Call, reply: &Reply) {
        if let Some(watcher) = self {
            watcher.heard(alloc, waiting, call, reply);
        }
    }
}

/// Two who watch.
#[derive(Drop)]
pub struct Pair<A: Watcher, B: Watcher> {
    pub first: A,
    pub second: B,
}

impl<A: Watcher, B: Watcher> Watcher for Pair<A, B> {
    ghost hears = { λ old waiting call reply new.
        A.hears old.first waiting call reply new.first
        × B.hears old.second waiting call reply new.second };

    fn heard(&mut self, alloc: Global, waiting: Waiting, call: &Call, reply: &Reply) {
        self.first.heard(alloc, waiting, call, reply);
        self.second.heard(alloc, waiting, call, reply);
    }
}

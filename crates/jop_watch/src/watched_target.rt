use crate::waiting::Waiting;
use crate::watcher::Watcher;
use jop_base::Bytes;
use jop_target::{Call, Reply, Target};
use std::alloc::{AllocError, Global};
use std::cell::Cell;

/// A target whose calls are told to a watcher.
#[derive(Drop)]
pub struct WatchedTarget<'a, T: Target, W: Watcher> {
    pub target: T,
    pub watcher: W,
    pub waiting: &'a Cell<Waiting>,
}

impl<'a, T: Target, W: Watcher> Target for WatchedTarget<'a, T, W> {
    ghost state = { λ w. T.state w.target };

    fn call(&mut self, alloc: Global, call: &Call, blob: &mut Bytes) -> Result<Reply, AllocError> {
        let reply = self.target.call(alloc, call, blob)?;
        self.watcher.heard(alloc, self.waiting.get(), call, &reply);
        Ok(reply)
    }
}

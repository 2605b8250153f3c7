use jop_base::Copied;
use jop_target::{Call, Reply};
use std::alloc::{AllocError, Global};

/// A call on a shared store, and its reply, at a moment of the store, in milliseconds since 1970. Its
/// client has the seat of that number, from 1 on. It landed if the store took it in.
#[derive(Debug, Drop)]
pub struct LogEntry {
    pub moment: u64,
    pub seat: u32,
    pub call: Call,
    pub reply: Reply,
    pub landed: bool,
}

impl Copied for LogEntry {
    fn copy(&self, alloc: Global) -> Result<LogEntry, AllocError> {
        Ok(LogEntry {
            moment: self.moment,
            seat: self.seat,
            call: self.call.copy(alloc)?,
            reply: self.reply.copy(alloc)?,
            landed: self.landed,
        })
    }
}

use crate::call::Call;
use crate::reply::Reply;
use jop_base::Copied;
use std::alloc::{AllocError, Global};
use std::fmt;

/// What a client does. A session stands from a `Began` to its `Ended`.
#[derive(Debug, PartialEq, Eq, Drop)]
pub enum Event {
    Began,
    /// A call whose reply was never heard: out of memory.
    Sent(Call),
    Called(Call, Reply),
    /// The change of this number, counted from 0 in the list of this run, was made in the client's
    /// own tables.
    Made(u64),
    Ended,
}

impl Copied for Event {
    fn copy(&self, alloc: Global) -> Result<Event, AllocError> {
        match self {
            Event::Began => Ok(Event::Began),
            Event::Sent(call) => Ok(Event::Sent(call.copy(alloc)?)),
            Event::Called(call, reply) => {
                Ok(Event::Called(call.copy(alloc)?, reply.copy(alloc)?))
            }
            Event::Made(number) => Ok(Event::Made(*number)),
            Event::Ended => Ok(Event::Ended),
        }
    }
}

impl fmt::Display for Event {
    ghost use Rattle.std.specs.Prelude.{Some};
    ghost use Rattle.jop_target.specs.Texts.{event_text};

    ghost output = { λ x. Some (event_text x) };

    fn fmt<W: fmt::Write>(&self, f: &mut fmt::Formatter<W>) -> fmt::Result {
        match self {
            Event::Began => f.write_str("began"),
            Event::Sent(call) => write!(f, "sent {call}"),
            Event::Called(call, reply) => write!(f, "{call}: {reply}"),
            Event::Made(number) => write!(f, "made {number}"),
            Event::Ended => f.write_str("ended"),
        }
    }
}

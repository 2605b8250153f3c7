ghost use Rattle.std.specs.Prelude.{◌≡◌, ◌↔◌, IsTrue};
ghost use Rattle.jop_target.specs.Runs.{is_failed};
ghost use Rattle.call_log.specs.Agreeing.{MayStandFor, is_answer_to, may_stand_alone};

use crate::entry::LogEntry;
use crate::same::{is_same_call, is_same_reply};
use jop_target::{Event, Reply};

/// Whether a call failed, by its reply.
fn is_failed(reply: &Reply) -> bool
    ensures { result ≡ is_failed reply.now }
{
    matches!(reply, Reply::Failed)
}

/// Whether the entry is of that seat, and its call didn't fail.
pub(crate) fn is_answer_to(entry: &LogEntry, seat: u32) -> bool
    ensures { result ≡ is_answer_to seat entry.now }
{
    entry.seat == seat && !is_failed(&entry.reply)
}

/// Whether an event may stand for no entry.
pub(crate) fn may_stand_alone(event: &Event) -> bool
    ensures { result ≡ may_stand_alone event.now }
{
    match event {
        Event::Called(_, reply) => is_failed(reply),
        Event::Began | Event::Sent(_) | Event::Made(_) | Event::Ended => true,
    }
}

/// Whether an event may stand for an entry.
pub(crate) fn may_stand_for(event: &Event, entry: &LogEntry) -> bool
    ensures { IsTrue result ↔ MayStandFor event.now entry.now }
{
    match event {
        Event::Called(call, reply) => {
            !is_failed(reply)
                && is_same_call(&entry.call, call)
                && is_same_reply(&entry.reply, reply)
        }
        Event::Sent(call) => is_same_call(&entry.call, call),
        Event::Began | Event::Made(_) | Event::Ended => false,
    }
}

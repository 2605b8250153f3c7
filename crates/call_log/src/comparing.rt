ghost use Rattle.std.specs.Prelude.{◌≡◌, ◌↔◌, ℕ, [], IfOk, IfNone, IfSome, IsTrue, map, option_map, slice_get};
ghost use Rattle.std.specs.List.{Contains};
ghost use Rattle.call_log.specs.Agreeing.{answers_to, entry_event};
ghost use Rattle.call_log.specs.Differing.{Compares};

use crate::entry::LogEntry;
use crate::gap::Gap;
use crate::standing::is_answer_to;
use crate::ways::go_on;
use jop_base::Copied;
use jop_target::Event;
use std::alloc::{AllocError, Global};
use std::mem;

/// What a seat was answered.
pub(crate) fn answers_to<'a>(
    alloc: Global,
    log: &'a [LogEntry],
    seat: u32,
) -> Result<Vec<&'a LogEntry>, AllocError>
    ensures { IfOk result (λ answers. map (λ e. e.now) answers.items ≡ answers_to seat log.now) }
{
    let mut answers = Vec::new(alloc);
    for entry in log {
        if is_answer_to(entry, seat) {
            answers.push(entry)?;
        }
    }
    Ok(answers)
}

/// Where the answers and the trail first differ. None if they agree.
pub(crate) fn find_gap(
    alloc: Global,
    answers: &[&LogEntry],
    trail: &[Event],
) -> Result<Option<Gap>, AllocError>
    ensures { IfOk result (λ gap. Compares (map (λ e. e.now) answers.now) trail.now gap) }
{
    let mut ways = Vec::new(alloc);
    let mut next = Vec::new(alloc);
    ways.push(0)?;
    for index in 0..trail.len() {
        next.clear();
        go_on(answers, ways.as_slice(), &trail[index], &mut next)?;
        if is_none(next.as_slice()) {
            return Ok(gap_at(ways.as_slice(), index));
        }
        mem::swap(&mut ways, &mut next);
    }
    if is_there(ways.as_slice(), answers.len()) {
        return Ok(None);
    }
    Ok(gap_at(ways.as_slice(), trail.len()))
}

fn is_none(ways: &[usize]) -> bool
    ensures { IsTrue result ↔ (ways.now ≡ []) }
{
    ways.is_empty()
}

fn is_there(ways: &[usize], way: usize) -> bool
    ensures { IsTrue result ↔ Contains ways.now way }
{
    ways.contains(&way)
}

/// The gap behind the last of these ways.
fn gap_at(ways: &[usize], event: usize) -> Option<Gap>
    ensures some { IfSome result (λ gap. Contains ways.now gap.entry × (gap.event ≡ event)) }
    ensures none { IfNone result (ways.now ≡ []) }
{
    match ways.last() {
        Some(entry) => Some(Gap {
            entry: *entry,
            event,
        }),
        None => None,
    }
}

/// An entry as its client writes it down.
pub(crate) fn entry_event(alloc: Global, entry: &LogEntry) -> Result<Event, AllocError>
    ensures { IfOk result (λ event. event ≡ entry_event entry.now) }
{
    let call = entry.call.copy(alloc)?;
    let reply = entry.reply.copy(alloc)?;
    Ok(Event::Called(call, reply))
}

/// The answer at a place, as its client writes it down.
pub(crate) fn event_at(
    alloc: Global,
    answers: &[&LogEntry],
    place: usize,
) -> Result<Option<Event>, AllocError>
    ensures { IfOk result (λ event. event
        ≡ option_map (λ e. entry_event e.now) (slice_get answers.now place)) }
{
    match answers.get(place) {
        Some(entry) => Ok(Some(entry_event(alloc, entry)?)),
        None => Ok(None),
    }
}

/// The event at a place.
pub(crate) fn told_at(
    alloc: Global,
    trail: &[Event],
    place: usize,
) -> Result<Option<Event>, AllocError>
    ensures { IfOk result (λ event. event ≡ slice_get trail.now place) }
{
    match trail.get(place) {
        Some(event) => Ok(Some(event.copy(alloc)?)),
        None => Ok(None),
    }
}

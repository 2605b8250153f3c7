ghost use Rattle.std.specs.Prelude.{◌≡◌, ◌<◌, ◌^◌, ◌↔◌, Err, IfOk, IsTrue, OnOk, Some, None, length, slice_get, option_map};
ghost use Rattle.call_log.specs.Agreeing.{AgreesWithLog, answers_to, entry_event};
ghost use Rattle.call_log.specs.Closing.{AgreesAt, AllAgree, HasMismatch, IsOfTrail, IsSeated, IsStray, SeatsWithin};
ghost use Rattle.call_log.specs.Differing.{Differs};
ghost use Rattle.call_log.specs.declared.mismatch.Mismatch.{Mismatch as Difference};

use crate::comparing::{answers_to, entry_event, event_at, find_gap, told_at};
use crate::entry::LogEntry;
use crate::gap::Gap;
use crate::mismatch::{CloseErr, Mismatch};
use crate::trailed::Trailed;
use jop_target::Event;
use std::alloc::{AllocError, Global};

/// What stands at a gap.
fn mismatch_at(
    alloc: Global,
    answers: &[&LogEntry],
    seat: u32,
    trail: &[Event],
    gap: Gap,
) -> Result<Mismatch, AllocError>
    ensures seat { IfOk result (λ m. m.seat ≡ seat) }
    ensures logged { IfOk result (λ m. m.logged
        ≡ option_map (λ e. entry_event e.now) (slice_get answers.now gap.entry)) }
    ensures told { IfOk result (λ m. m.told ≡ slice_get trail.now gap.event) }
{
    Ok(Mismatch {
        seat,
        logged: event_at(alloc, answers, gap.entry)?,
        told: told_at(alloc, trail, gap.event)?,
    })
}

/// Compares what a seat was answered with its trail.
fn compare(alloc: Global, log: &[LogEntry], seat: u32, trail: &[Event]) -> Result<(), CloseErr>
    ensures ok { OnOk result (AgreesWithLog log.now seat trail.now) }
    ensures err { (m : Difference) → result ≡ Err (CloseErr.Mismatch m) →
        (m.seat ≡ seat) × Differs log.now trail.now m }
{
    let answers = answers_to(alloc, log, seat)?;
    match find_gap(alloc, answers.as_slice(), trail)? {
        None => Ok(()),
        Some(gap) => {
            let mismatch = mismatch_at(alloc, answers.as_slice(), seat, trail, gap)?;
            Err(CloseErr::Mismatch(mismatch))
        }
    }
}

/// Compares the trail at a place, counted from 0, with what its seat was answered.
fn compare_one<T: Trailed>(
    alloc: Global,
    log: &[LogEntry],
    trails: &[T],
    place: usize,
) -> Result<(), CloseErr>
    requires room { length trails.now < 2 ^ 32 }
    requires within { place < length trails.now }
    ensures ok { OnOk result (AgreesAt T.trail log.now trails.now place) }
    ensures err { (m : Difference) → result ≡ Err (CloseErr.Mismatch m) →
        IsOfTrail T.trail log.now trails.now m }
{
    match compare(alloc, log, place as u32 + 1, trails[place].trail().events()) {
        Ok(()) => Ok(()),
        Err(error) => Err(error),
    }
}

/// Compares each trail with what its seat was answered.
fn compare_all<T: Trailed>(alloc: Global, log: &[LogEntry], trails: &[T]) -> Result<(), CloseErr>
    requires { length trails.now < 2 ^ 32 }
    ensures ok { OnOk result (AllAgree T.trail log.now trails.now) }
    ensures err { (m : Difference) → result ≡ Err (CloseErr.Mismatch m) →
        IsOfTrail T.trail log.now trails.now m }
{
    for index in 0..trails.len() {
        compare_one(alloc, log, trails, index)?;
    }
    Ok(())
}

/// Whether an entry is of a seat from 1 to this one.
fn is_seated(entry: &LogEntry, seats: u32) -> bool
    ensures { IsTrue result ↔ IsSeated seats entry.now }
{
    1 <= entry.seat && entry.seat <= seats
}

/// Sees that no entry is of a seat without a trail.
fn check_seats(alloc: Global, log: &[LogEntry], seats: u32) -> Result<(), CloseErr>
    ensures ok { OnOk result (SeatsWithin seats log.now) }
    ensures err { (m : Difference) → result ≡ Err (CloseErr.Mismatch m) → IsStray seats log.now m }
{
    for index in 0..log.len() {
        if !is_seated(&log[index], seats) {
            let mismatch = stray(alloc, &log[index])?;
            return Err(CloseErr::Mismatch(mismatch));
        }
    }
    Ok(())
}

/// The mismatch of an entry of a seat without a trail.
fn stray(alloc: Global, entry: &LogEntry) -> Result<Mismatch, AllocError>
    ensures { IfOk result (λ m. m ≡ record {
      seat = entry.now.seat;
      logged = Some (entry_event entry.now);
      told = None;
    }) }
{
    Ok(Mismatch {
        seat: entry.seat,
        logged: Some(entry_event(alloc, entry)?),
        told: None,
    })
}

/// Compares a log with the trails of its seats, of which the first is that of seat 1. It is refused
/// where a trail differs from what its seat was answered, and where a seat has an entry and no trail.
pub fn close_log<T: Trailed>(alloc: Global, log: &[LogEntry], trails: &[T]) -> Result<(), CloseErr>
    requires { length trails.now < 2 ^ 32 }
    ensures agree { OnOk result (AllAgree T.trail log.now trails.now) }
    ensures seats { OnOk result (SeatsWithin (length trails.now) log.now) }
    ensures err { (m : Difference) → result ≡ Err (CloseErr.Mismatch m) →
        HasMismatch T.trail log.now trails.now m }
{
    compare_all(alloc, log, trails)?;
    match check_seats(alloc, log, trails.len() as u32) {
        Ok(()) => Ok(()),
        Err(error) => Err(error),
    }
}

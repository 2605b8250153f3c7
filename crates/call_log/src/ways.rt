ghost use Rattle.std.specs.Prelude.{◌≡◌, ◌⊎◌, ◌↔◌, ◌+◌, [], ℕ, OnOk, Some, map, true};
ghost use Rattle.std.specs.List.{Contains};
ghost use Rattle.call_log.specs.Agreeing.{LeadsOn, MayStandAt, may_stand_alone};

use crate::entry::LogEntry;
use crate::standing::{may_stand_alone, may_stand_for};
use jop_target::Event;
use std::alloc::AllocError;

/// Whether a number is the last of a list.
fn is_last(list: &[usize], number: usize) -> bool
    ensures { result ≡ true → Contains list.now number }
{
    match list.last() {
        Some(last) => *last == number,
        None => false,
    }
}

/// Adds a number, unless it is the last one.
#[tactic(auto, using(crate::proofs::Leading::contains_pushed, crate::proofs::Leading::contains_still))]
fn add(list: &mut Vec<usize>, number: usize) -> Result<(), AllocError>
    ensures { OnOk result ((n : ℕ) → Contains list.new.items n
        ↔ (Contains list.old.items n ⊎ (n ≡ number))) }
{
    if is_last(list.as_slice(), number) {
        return Ok(());
    }
    list.push(number)?;
    Ok(())
}

/// Adds a number, if there is one.
fn add_some(list: &mut Vec<usize>, number: Option<usize>) -> Result<(), AllocError>
    ensures { OnOk result ((n : ℕ) → Contains list.new.items n
        ↔ (Contains list.old.items n ⊎ (Some n ≡ number))) }
{
    match number {
        Some(number) => {
            add(list, number)?;
            Ok(())
        }
        None => Ok(()),
    }
}

/// The place to which an event leads that stands for no entry.
fn same_place(way: usize, event: &Event) -> Option<usize>
    ensures { (n : ℕ) → (Some n ≡ result) ↔ ((may_stand_alone event.now ≡ true) × (n ≡ way)) }
{
    if may_stand_alone(event) {
        Some(way)
    } else {
        None
    }
}

/// The place to which an event leads that stands for the entry there.
fn next_place(answers: &[&LogEntry], way: usize, event: &Event) -> Option<usize>
    ensures { (n : ℕ) → (Some n ≡ result)
        ↔ (MayStandAt (map (λ e. e.now) answers.now) event.now way × (n ≡ way + 1)) }
{
    if way < answers.len() && may_stand_for(event, answers[way]) {
        Some(way + 1)
    } else {
        None
    }
}

/// Adds where an event leads from a place among the answers.
fn add_next(
    answers: &[&LogEntry],
    way: usize,
    event: &Event,
    next: &mut Vec<usize>,
) -> Result<(), AllocError>
    ensures { OnOk result ((n : ℕ) → Contains next.new.items n ↔ (Contains next.old.items n
        ⊎ LeadsOn (map (λ e. e.now) answers.now) event.now way n)) }
{
    add_some(next, same_place(way, event))?;
    add_some(next, next_place(answers, way, event))?;
    Ok(())
}

/// Where an event leads from these places among the answers.
pub(crate) fn go_on(
    answers: &[&LogEntry],
    ways: &[usize],
    event: &Event,
    next: &mut Vec<usize>,
) -> Result<(), AllocError>
    requires { next.old.items ≡ [] }
    ensures { OnOk result ((n : ℕ) → Contains next.new.items n ↔ ((w : ℕ)
        × Contains ways.now w × LeadsOn (map (λ e. e.now) answers.now) event.now w n)) }
{
    for way in ways {
        add_next(answers, *way, event, next)?;
    }
    Ok(())
}

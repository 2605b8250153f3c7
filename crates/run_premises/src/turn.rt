ghost use Rattle.std.specs.Prelude.{◌≡◌, true};
ghost use Rattle.law_licences.specs.Checks.{is_file_of};
ghost use Rattle.run_premises.specs.Between.{is_check_turn, is_own_turn, is_upload_turn, other_turn, own_turn, step_turn, turn_of, turn_of_call, turn_on, uploaded_item, uploaded_by};
ghost use Rattle.run_premises.specs.Steps.{history_step};

use crate::run_step::RunStep;
use jop_base::{ClientId, Id, Path};
use jop_target::{Call, Event};

/// What a step is for one item and one client.
#[derive(Clone, Copy, Debug, PartialEq, Eq)]
pub(crate) enum Turn {
    /// The client gets the item's file.
    Checks,
    /// The client does otherwise with the file, or its session begins or ends.
    Breaks,
    /// Another client's put of the file lands.
    Uploads,
    Nothing,
}

/// Whether the client does it.
pub(crate) fn is_own_turn(turn: Turn) -> bool
    ensures { result ≡ is_own_turn turn }
{
    match turn {
        Turn::Checks | Turn::Breaks => true,
        Turn::Uploads | Turn::Nothing => false,
    }
}

pub(crate) fn is_check_turn(turn: Turn) -> bool
    ensures { result ≡ is_check_turn turn }
{
    match turn {
        Turn::Checks => true,
        Turn::Breaks | Turn::Uploads | Turn::Nothing => false,
    }
}

pub(crate) fn is_upload_turn(turn: Turn) -> bool
    ensures { result ≡ is_upload_turn turn }
{
    match turn {
        Turn::Uploads => true,
        Turn::Checks | Turn::Breaks | Turn::Nothing => false,
    }
}

fn is_file_of(id: &Id, path: &Path) -> bool
    ensures { result ≡ is_file_of id.now path.now }
{
    match path {
        Path::Item(other) => *other == *id,
        _ => false,
    }
}

fn turn_on(is_on: bool, turn: Turn) -> Turn
    ensures { result ≡ turn_on is_on turn }
{
    if is_on { turn } else { Turn::Nothing }
}

fn turn_of_call(id: &Id, call: &Call, landed: bool) -> Turn
    ensures { result ≡ turn_of_call id.now call.now landed }
{
    match call {
        Call::Get(path) => turn_on(is_file_of(id, path), Turn::Checks),
        Call::Put(path, _) => {
            if landed {
                turn_on(is_file_of(id, path), Turn::Uploads)
            } else {
                turn_on(is_file_of(id, path), Turn::Breaks)
            }
        }
        Call::Delete(path) => turn_on(is_file_of(id, path), Turn::Breaks),
        Call::List(_) | Call::MakeDir(_) | Call::GetBlob(_) | Call::PutBlob { id: _, len: _ } => {
            Turn::Nothing
        }
    }
}

/// What a step is for an item, where its own client puts or gets.
fn turn_of(id: &Id, step: &RunStep<'_>) -> Turn
    ensures { result ≡ turn_of id.now (history_step step.now).happens }
{
    match step.event {
        Event::Began | Event::Ended => Turn::Breaks,
        Event::Sent(call) | Event::Called(call, _) => turn_of_call(id, call, step.landed),
        Event::Made(_) => Turn::Nothing,
    }
}

fn own_turn(turn: Turn) -> Turn
    ensures { result ≡ own_turn turn }
{
    match turn {
        Turn::Uploads => Turn::Breaks,
        Turn::Checks => Turn::Checks,
        Turn::Breaks => Turn::Breaks,
        Turn::Nothing => Turn::Nothing,
    }
}

fn other_turn(turn: Turn) -> Turn
    ensures { result ≡ other_turn turn }
{
    match turn {
        Turn::Uploads => Turn::Uploads,
        Turn::Checks | Turn::Breaks | Turn::Nothing => Turn::Nothing,
    }
}

/// What a step is for an item and a client.
pub(crate) fn step_turn(id: &Id, client: &ClientId, step: &RunStep<'_>) -> Turn
    ensures { result ≡ step_turn id.now client.now (history_step step.now) }
{
    if *step.client == *client {
        own_turn(turn_of(id, step))
    } else {
        other_turn(turn_of(id, step))
    }
}

fn uploaded_by(call: &Call) -> Option<Id>
    ensures { result ≡ uploaded_by call.now }
{
    match call {
        Call::Put(Path::Item(id), _) => Some(*id),
        _ => None,
    }
}

/// The item whose file a step puts, if the put landed.
pub(crate) fn uploaded_item(step: &RunStep<'_>) -> Option<Id>
    ensures { result ≡ uploaded_item (history_step step.now) }
{
    match step.event {
        Event::Sent(call) | Event::Called(call, _) if step.landed => uploaded_by(call),
        _ => None,
    }
}

ghost use Rattle.std.specs.Prelude.{◌≡◌};
ghost use Rattle.run_premises.specs.InTime.{writes};
ghost use Rattle.run_premises.specs.Steps.{history_step};
ghost use Rattle.jop_target.specs.History.{is_guarded_call};

use jop_base::ClientId;
use jop_target::{Call, Event};

/// What a client does, at a moment of the store, in milliseconds since 1970; and whether the store took
/// its call in, if it is one.
#[derive(Clone, Copy, Debug)]
pub struct RunStep<'a> {
    pub client: &'a ClientId,
    pub moment: u64,
    pub event: &'a Event,
    pub landed: bool,
}

fn is_guarded_call(call: &Call) -> bool
    ensures { result ≡ is_guarded_call call.now }
{
    match call {
        Call::Put(path, _) | Call::Delete(path) => path.is_guarded(),
        Call::PutBlob { id: _, len: _ } => true,
        Call::List(_) | Call::Get(_) | Call::MakeDir(_) | Call::GetBlob(_) => false,
    }
}

/// Whether a call lands that changes files other than locks and temporary ones.
pub(crate) fn writes(step: &RunStep<'_>) -> bool
    ensures { result ≡ writes (history_step step.now) }
{
    match step.event {
        Event::Sent(call) | Event::Called(call, _) => step.landed && is_guarded_call(call),
        Event::Began | Event::Made(_) | Event::Ended => false,
    }
}

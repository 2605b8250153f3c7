use jop_target::Event;
use std::alloc::AllocError;

/// Where a log and the trail of a seat first differ: the entry that comes next in the log, as an event, and what stands
/// in its place in the trail. Either is None where nothing is left.
#[derive(Debug, Drop)]
pub struct Mismatch {
    pub seat: u32,
    pub logged: Option<Event>,
    pub told: Option<Event>,
}

/// Why a log isn't closed.
#[derive(Debug, Drop)]
pub enum CloseErr {
    Mismatch(Mismatch),
    NoMemory,
}

impl From<AllocError> for CloseErr {
    ghost use Rattle.std.specs.Prelude.{◌≡◌};
    ghost use Rattle.call_log.specs.declared.mismatch.CloseErr.TheVariants.{NoMemory};

    ghost from_gives = { λ _ e. e ≡ NoMemory };

    fn from(_error: AllocError) -> CloseErr {
        CloseErr::NoMemory
    }
}

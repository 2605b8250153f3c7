ghost use Rattle.std.specs.Prelude.{◌≡◌, if◌then◌else◌, ◌==◌};
ghost use Rattle.dav_wire.specs.ResponseFrames.{outcome_of};

use jop_base::Dir;
use jop_target::{Call, limit_of};

/// What the status of a response means.
#[derive(Clone, Copy, Debug, PartialEq, Eq)]
pub enum Outcome {
    Listing(Dir),
    /// A file, and its limit in bytes.
    Content(u64),
    Blob,
    Absent,
    Done,
    /// Nothing that the call may be answered.
    Other,
}

/// What a status means in the response to a call.
pub(crate) fn outcome_of(call: &Call, status: u16) -> Outcome
    ensures { result ≡ outcome_of call.now status }
{
    match call {
        Call::List(dir) => {
            if status == 207 {
                Outcome::Listing(*dir)
            } else {
                Outcome::Other
            }
        }
        Call::Get(path) => got(status, Outcome::Content(limit_of(path))),
        Call::GetBlob(_) => got(status, Outcome::Blob),
        Call::Put(..) | Call::PutBlob { .. } => done(status == 201 || status == 204),
        Call::MakeDir(_) => done(status == 201 || status == 405),
        Call::Delete(_) => {
            if status == 204 {
                Outcome::Done
            } else if status == 404 {
                Outcome::Absent
            } else {
                Outcome::Other
            }
        }
    }
}

fn got(status: u16, content: Outcome) -> Outcome
    ensures { result ≡ (if status == 200 then content
        else (if status == 404 then Outcome.Absent else Outcome.Other)) }
{
    if status == 200 {
        content
    } else if status == 404 {
        Outcome::Absent
    } else {
        Outcome::Other
    }
}

fn done(yes: bool) -> Outcome
    ensures { result ≡ (if yes then Outcome.Done else Outcome.Other) }
{
    if yes { Outcome::Done } else { Outcome::Other }
}

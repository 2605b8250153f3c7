ghost use Rattle.std.specs.Prelude.{◌≡◌};
ghost use Rattle.webdav_calls.specs.Outcomes.{call_outcome, content_outcome, deleted_outcome, done_if, file_outcome, listed_outcome, made_outcome, put_outcome};

use http_exchange::Told;
use jop_base::{Dir, Path};
use jop_target::{Call, limit_of};

/// What the head of a response to a call means.
#[derive(Clone, Copy, Debug, PartialEq, Eq)]
pub enum Outcome {
    /// The files of a folder, which the body lists.
    Listing(Dir),
    /// The text of a file, which the body is.
    Content,
    /// The bytes of a blob, which the body is.
    Blob,
    /// A file with so many bytes, which are past its limit.
    TooLong(u64),
    Absent,
    Done,
    /// No answer to the call.
    Failed,
}

fn done_if(holds: bool) -> Outcome
    ensures { result ≡ done_if holds }
{
    if holds {
        Outcome::Done
    } else {
        Outcome::Failed
    }
}

fn content_outcome(length: Option<u64>, limit: u64, content: Outcome) -> Outcome
    ensures { result ≡ content_outcome length limit content }
{
    match length {
        None => content,
        Some(length) => {
            if limit < length {
                Outcome::TooLong(length)
            } else {
                content
            }
        }
    }
}

fn file_outcome(told: Told, limit: u64, content: Outcome) -> Outcome
    ensures { result ≡ file_outcome told limit content }
{
    if told.status == 200 && !told.endless {
        content_outcome(told.length, limit, content)
    } else if told.status == 404 {
        Outcome::Absent
    } else {
        Outcome::Failed
    }
}

fn listed_outcome(status: u16, dir: Dir) -> Outcome
    ensures { result ≡ listed_outcome status dir }
{
    if status == 207 {
        Outcome::Listing(dir)
    } else {
        Outcome::Failed
    }
}

fn deleted_outcome(status: u16) -> Outcome
    ensures { result ≡ deleted_outcome status }
{
    if status == 404 {
        Outcome::Absent
    } else {
        done_if(status == 200 || status == 204)
    }
}

fn put_outcome(status: u16) -> Outcome
    ensures { result ≡ put_outcome status }
{
    done_if(status == 200 || status == 201 || status == 204)
}

fn made_outcome(status: u16) -> Outcome
    ensures { result ≡ made_outcome status }
{
    done_if(status == 201 || status == 405)
}

/// What the head of a response to a call means.
pub fn call_outcome(call: &Call, told: Told) -> Outcome
    ensures { result ≡ call_outcome call.now told }
{
    match call {
        Call::List(dir) => listed_outcome(told.status, *dir),
        Call::Get(path) => file_outcome(told, limit_of(path), Outcome::Content),
        Call::GetBlob(id) => file_outcome(told, limit_of(&Path::Blob(*id)), Outcome::Blob),
        Call::Put(..) => put_outcome(told.status),
        Call::PutBlob { .. } => put_outcome(told.status),
        Call::MakeDir(_) => made_outcome(told.status),
        Call::Delete(_) => deleted_outcome(told.status),
    }
}

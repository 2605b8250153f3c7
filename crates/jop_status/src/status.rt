ghost use Rattle.std.specs.Prelude.{◌≡◌};
ghost use Rattle.jop_outside.specs.Writing.{WritesAll};
ghost use Rattle.jop_status.specs.Reports.{Reports};
ghost use Rattle.jop_status.specs.Statuses.{row_of};
ghost use Rattle.jop_status.specs.declared.status.Status.TheVariants.{Refused};

use crate::piece::{Piece, write_pieces};
use crate::status_line::{
    why_text, write_bad_item, write_busy, write_id, write_not_one, write_number, write_version,
    write_within, write_word,
};
use client::OwnErr;
use conflicts::Refusal;
use item_text::BadItem;
use jop_base::Id;
use jop_outside::{Failed, Sink};
use key_commands::KeysErr;
use lease::{Lock, Seen};
use local_commands::{LocalErr, StartCount};
use sync_run::SessionErr;

/// How the program is called: the line of `Usage`, and what `help` prints.
pub const USAGE_LINE: &str = "usage: jop [--profile PATH] COMMAND\n";

/// How a run of the program ended.
#[derive(Clone, Copy, Debug, PartialEq, Eq)]
pub enum Status {
    Ok,
    /// The words mean no command.
    Usage,
    /// A listing of that moment, in milliseconds since 1970, shows this live lock of another, which
    /// is in the way.
    Busy { lock: Lock, now: u64 },
    /// Its own lock wasn't shown in time, or was renewed too late.
    LeaseLost(Seen),
    /// Its session was refused, though nothing has failed.
    Refused(Refusal),
    /// A call of the target failed.
    TargetFault,
    /// The tables couldn't be read or changed.
    KeeperFault,
    /// A read of standard input failed.
    SourceFault,
    /// A write to standard output failed.
    SinkFault,
    /// The clock didn't show the time.
    ClockFault,
    /// No random bytes could be drawn.
    EntropyFault,
    /// No row of this id is of the kind that is wanted.
    NotFound(Id),
    /// It isn't one row whose id begins so, but none or several.
    NotOne(StartCount),
    /// The item of this id is sealed, or its bytes are and don't open.
    Sealed(Id),
    /// The note of this id was last changed at the end of time.
    TimeEnd(Id),
    /// The input is longer than its limit: so many bytes were read, one more than the limit. Or the
    /// text of the item is too long, and has so many bytes.
    TooLarge(u64),
    /// The input is no text of an item. This is the first reason.
    BadItem(BadItem),
    NoMemory,
    /// There is no conflict note of this number.
    NoConflict(u64),
    /// Notes or notebooks are in the notebook of this id.
    NotEmpty(Id),
    /// The input isn't UTF-8.
    NotText,
    /// The notebook of this id would come into itself, or below itself.
    BelowItself(Id),
    /// The record of this key doesn't open under the password.
    BadPassword(Id),
    /// There is no password for this key, or no readable record of it.
    NoKey(Option<Id>),
}

impl Status {
    /// The exit status of the program.
    pub fn exit(&self) -> u8
        ensures { result ≡ (row_of self.now).exit }
    {
        match self {
            Status::Ok => 0,
            Status::Usage => 2,
            Status::Busy { lock: _, now: _ } => 3,
            Status::LeaseLost(_) => 4,
            Status::Refused(Refusal::TargetOlder(_)) => 5,
            Status::Refused(Refusal::TargetNewer(_)) => 6,
            Status::Refused(Refusal::BadInfo) => 7,
            Status::Refused(Refusal::FailSafe(_)) => 8,
            Status::TargetFault => 9,
            Status::KeeperFault => 10,
            Status::SourceFault => 11,
            Status::SinkFault => 12,
            Status::ClockFault => 13,
            Status::EntropyFault => 14,
            Status::NotFound(_) | Status::NotOne(_) => 15,
            Status::Sealed(_) => 16,
            Status::TimeEnd(_) => 17,
            Status::TooLarge(_) => 18,
            Status::BadPassword(_) => 19,
            Status::Refused(Refusal::NoKey(_)) => 20,
            Status::NoKey(_) => 20,
            Status::BadItem(_) => 21,
            Status::NoMemory => 22,
            Status::NoConflict(_) => 23,
            Status::NotEmpty(_) => 24,
            Status::NotText => 25,
            Status::BelowItself(_) => 26,
        }
    }
}

/// Writes the line of the status on standard error, or as much of it as is taken. A write that fails
/// isn't told: the run has ended by then, and the status stays what it is.
pub fn report<E: Sink>(err: &mut E, status: &Status)
    ensures { Reports (E.state err.old) status.now (E.state err.new) }
{
    let _ = write_line(err, status);
}

/// A row for each status: its line, piece by piece.
fn write_line<E: Sink>(err: &mut E, status: &Status) -> Result<(), Failed>
    ensures { WritesAll (E.state err.old) (row_of status.now).line result (E.state err.new) }
{
    match status {
        Status::Ok => Ok(()),
        Status::Usage => write_pieces(err, &[Piece::Word(USAGE_LINE)]),
        Status::Busy { lock, now: _ } => write_busy(err, lock.name, lock.stamp),
        Status::LeaseLost(_) => write_word(err, "lease lost"),
        Status::Refused(why) => write_refusal(err, why),
        Status::TargetFault => write_word(err, "target fault"),
        Status::KeeperFault => write_word(err, "keeper fault"),
        Status::SourceFault => write_word(err, "input fault"),
        Status::SinkFault => write_word(err, "output fault"),
        Status::ClockFault => write_word(err, "clock fault"),
        Status::EntropyFault => write_word(err, "random source fault"),
        Status::NotFound(id) => write_id(err, "not found ", *id),
        Status::NotOne(count) => write_not_one(err, &count.start, count.count),
        Status::Sealed(id) => write_id(err, "sealed ", *id),
        Status::TimeEnd(id) => write_id(err, "time end ", *id),
        Status::TooLarge(len) => write_number(err, "too large ", *len),
        Status::BadItem(bad) => write_bad_item(err, bad.line, why_text(bad.why)),
        Status::NoMemory => write_word(err, "no memory"),
        Status::NoConflict(number) => write_number(err, "no conflict ", *number),
        Status::NotEmpty(id) => write_id(err, "not empty ", *id),
        Status::NotText => write_word(err, "input is not text"),
        Status::BelowItself(id) => write_id(err, "below itself ", *id),
        Status::BadPassword(id) => write_id(err, "bad password ", *id),
        Status::NoKey(None) => write_word(err, "no key"),
        Status::NoKey(Some(id)) => write_id(err, "no key ", *id),
    }
}

/// A row for each refusal of a session, likewise.
fn write_refusal<E: Sink>(err: &mut E, why: &Refusal) -> Result<(), Failed>
    ensures { WritesAll (E.state err.old) (row_of (Refused why.now)).line result (E.state err.new) }
{
    match why {
        Refusal::TargetOlder(version) => write_version(err, *version, " is older than "),
        Refusal::TargetNewer(version) => write_version(err, *version, " is newer than "),
        Refusal::BadInfo => write_word(err, "info.json is not readable"),
        Refusal::FailSafe(count) => {
            write_within(err, "no items on the target, ", *count, " kept here")
        }
        Refusal::NoKey(None) => write_word(err, "no key"),
        Refusal::NoKey(Some(id)) => write_id(err, "no key ", *id),
    }
}

impl From<SessionErr> for Status {
    ghost use Rattle.std.specs.Prelude.{◌≡◌};
    ghost use Rattle.jop_status.specs.Refusals.{session_status};

    ghost from_gives = { λ s e. e ≡ session_status s };

    fn from(error: SessionErr) -> Status {
        match error {
            SessionErr::Busy { lock, now } => Status::Busy { lock, now },
            SessionErr::LeaseLost(seen) => Status::LeaseLost(seen),
            SessionErr::Refused(why) => Status::Refused(why),
            SessionErr::TargetFault => Status::TargetFault,
            SessionErr::NoMemory => Status::NoMemory,
        }
    }
}

impl From<OwnErr> for Status {
    ghost use Rattle.std.specs.Prelude.{◌≡◌};
    ghost use Rattle.jop_status.specs.Refusals.{own_status};

    ghost from_gives = { λ o e. e ≡ own_status o };

    fn from(error: OwnErr) -> Status {
        match error {
            OwnErr::KeeperFault => Status::KeeperFault,
            OwnErr::EntropyFault => Status::EntropyFault,
            OwnErr::NoMemory => Status::NoMemory,
        }
    }
}

impl From<LocalErr> for Status {
    ghost use Rattle.std.specs.Prelude.{◌≡◌};
    ghost use Rattle.jop_status.specs.Refusals.{local_status};

    ghost from_gives = { λ l e. e ≡ local_status l };

    fn from(error: LocalErr) -> Status {
        match error {
            LocalErr::KeeperFault => Status::KeeperFault,
            LocalErr::SourceFault => Status::SourceFault,
            LocalErr::ClockFault => Status::ClockFault,
            LocalErr::EntropyFault => Status::EntropyFault,
            LocalErr::NotFound(id) => Status::NotFound(id),
            LocalErr::NotOne(count) => Status::NotOne(count),
            LocalErr::Sealed(id) => Status::Sealed(id),
            LocalErr::TimeEnd(id) => Status::TimeEnd(id),
            LocalErr::NotEmpty(id) => Status::NotEmpty(id),
            LocalErr::BelowItself(id) => Status::BelowItself(id),
            LocalErr::NoConflict(number) => Status::NoConflict(number),
            LocalErr::TooLarge(len) => Status::TooLarge(len),
            LocalErr::NotText => Status::NotText,
            LocalErr::NoMemory => Status::NoMemory,
        }
    }
}

impl From<KeysErr> for Status {
    ghost use Rattle.std.specs.Prelude.{◌≡◌};
    ghost use Rattle.jop_status.specs.Refusals.{keys_status};

    ghost from_gives = { λ k e. e ≡ keys_status k };

    fn from(error: KeysErr) -> Status {
        match error {
            KeysErr::KeeperFault => Status::KeeperFault,
            KeysErr::ClockFault => Status::ClockFault,
            KeysErr::EntropyFault => Status::EntropyFault,
            KeysErr::NotFound(id) => Status::NotFound(id),
            KeysErr::NotOne(count) => Status::NotOne(count),
            KeysErr::Sealed(id) => Status::Sealed(id),
            KeysErr::BadPassword(key) => Status::BadPassword(key),
            KeysErr::NoKey(key) => Status::NoKey(key),
            KeysErr::NoMemory => Status::NoMemory,
        }
    }
}

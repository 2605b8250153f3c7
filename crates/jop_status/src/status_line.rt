ghost use Rattle.std.specs.Prelude.{◌≡◌, ◌++◌};
ghost use Rattle.std.specs.Fmt.{decimal};
ghost use Rattle.jop_outside.specs.Writing.{WritesAll};
ghost use Rattle.jop_status.specs.Statuses.{
  bad_item_text,
  busy_text,
  line_of,
  not_one_text,
  version_text,
  why_text,
  within_text,
};

use crate::piece::{Piece, write_pieces};
use item_text::BadWhy;
use jop_base::{Id, LockName};
use jop_outside::{Failed, Sink};
use local_commands::IdStart;
use target_upgrade::SUPPORTED;

/// Writes the name of the lock that is in the way, and its stamp.
pub(crate) fn write_busy<E: Sink>(err: &mut E, name: LockName, stamp: u64) -> Result<(), Failed>
    ensures { WritesAll (E.state err.old) (line_of (busy_text name stamp)) result
        (E.state err.new) }
{
    write_pieces(
        err,
        &[
            Piece::Word("busy "),
            Piece::Name(name),
            Piece::Word(" "),
            Piece::Number(stamp),
            Piece::Word("\n"),
        ],
    )
}

/// Writes a word and the id that it is about.
pub(crate) fn write_id<E: Sink>(err: &mut E, word: &str, id: Id) -> Result<(), Failed>
    ensures { WritesAll (E.state err.old) (line_of (word.now ++ id)) result (E.state err.new) }
{
    write_pieces(err, &[Piece::Word(word), Piece::Id(id), Piece::Word("\n")])
}

/// Writes the first digits of an id, and how many rows have an id that begins so.
pub(crate) fn write_not_one<E: Sink>(err: &mut E, start: &IdStart, count: u64) -> Result<(), Failed>
    ensures { WritesAll (E.state err.old) (line_of (not_one_text start.now count)) result
        (E.state err.new) }
{
    write_pieces(
        err,
        &[
            Piece::Word("not found "),
            Piece::Bytes(start.as_slice()),
            Piece::Word(", "),
            Piece::Number(count),
            Piece::Word(" ids begin so\n"),
        ],
    )
}

/// Writes the version of a target, and how it stands to the one of this program.
pub(crate) fn write_version<E: Sink>(err: &mut E, version: u64, stands: &str) -> Result<(), Failed>
    ensures { WritesAll (E.state err.old) (line_of (version_text version stands.now)) result
        (E.state err.new) }
{
    write_pieces(
        err,
        &[
            Piece::Word("target version "),
            Piece::Number(version),
            Piece::Word(stands),
            Piece::Number(SUPPORTED),
            Piece::Word("\n"),
        ],
    )
}

/// Writes a number between two words.
pub(crate) fn write_within<'w, E: Sink>(
    err: &mut E,
    word: &'w str,
    number: u64,
    behind: &'w str,
) -> Result<(), Failed>
    ensures { WritesAll (E.state err.old) (line_of (within_text word.now number behind.now)) result
        (E.state err.new) }
{
    write_pieces(
        err,
        &[
            Piece::Word(word),
            Piece::Number(number),
            Piece::Word(behind),
            Piece::Word("\n"),
        ],
    )
}

/// Writes a line that is the same each time.
pub(crate) fn write_word<E: Sink>(err: &mut E, word: &str) -> Result<(), Failed>
    ensures { WritesAll (E.state err.old) (line_of word.now) result (E.state err.new) }
{
    write_pieces(err, &[Piece::Word(word), Piece::Word("\n")])
}

/// Writes a word and the number that it is about.
pub(crate) fn write_number<E: Sink>(err: &mut E, word: &str, number: u64) -> Result<(), Failed>
    ensures { WritesAll (E.state err.old) (line_of (word.now ++ decimal number)) result
        (E.state err.new) }
{
    write_pieces(
        err,
        &[Piece::Word(word), Piece::Number(number), Piece::Word("\n")],
    )
}

pub(crate) fn write_bad_item<E: Sink>(err: &mut E, line: u64, why: &str) -> Result<(), Failed>
    ensures { WritesAll (E.state err.old) (line_of (bad_item_text line why.now)) result
        (E.state err.new) }
{
    write_pieces(
        err,
        &[
            Piece::Word("bad item line "),
            Piece::Number(line),
            Piece::Word(" "),
            Piece::Word(why),
            Piece::Word("\n"),
        ],
    )
}

/// Why a text is no item's, in words.
pub(crate) fn why_text(why: BadWhy) -> &'static str
    ensures { result.now ≡ why_text why }
{
    match why {
        BadWhy::NotText => "not text",
        BadWhy::NoColon => "no colon",
        BadWhy::NoType => "no type",
        BadWhy::TypeValue => "type value",
    }
}

//! The two numbers in a database's header by which its file says whose it is.

ghost use Rattle.std.specs.Prelude.{◌≡◌, ◌≢◌, ◌↔◌, ◌<◌, ◌≤◌, length};
ghost use Rattle.sqlite_format.specs.Bytes.{SameOutside, u32_at};
ghost use Rattle.keeper_file.specs.Marks.{application_in, layout_in};

use sqlite_format::bytes::{get_u32, put_u32};

/// This program's number: `jopt` in ASCII.
pub(crate) const APPLICATION: u32 = 0x6a6f_7074;

/// The number of the tables' layout. A change of the layout takes the next one.
pub(crate) const LAYOUT: u32 = 1;

/// Where the first number begins in a header.
pub(crate) const MARK_START: usize = 60;

/// Where the second number ends.
pub(crate) const MARK_END: usize = 72;

/// Whose a file is, by its header.
#[derive(Clone, Copy, Debug, PartialEq, Eq)]
pub(crate) enum Mark {
    /// This program's, in this layout.
    Own,
    /// Anybody's: this program marked no files at first, and few programs mark theirs.
    Unmarked,
    /// Another program's, or in a layout of later than this.
    Foreign,
}

/// What a header says, of which this is the beginning.
pub(crate) fn mark_of(head: &[u8]) -> Mark
    requires { MARK_END ≤ length head.now }
    ensures own { (result ≡ Mark.Own)
        ↔ ((application_in head.now ≡ APPLICATION) × (layout_in head.now ≡ LAYOUT)) }
    ensures unmarked { application_in head.now ≡ 0 → layout_in head.now ≤ LAYOUT
        → result ≡ Mark.Unmarked }
    ensures other { application_in head.now ≢ 0 → application_in head.now ≢ APPLICATION
        → result ≡ Mark.Foreign }
    ensures later { LAYOUT < layout_in head.now → result ≡ Mark.Foreign }
{
    let (layout, application) = (get_u32(head, 60), get_u32(head, 68));
    if layout > LAYOUT || (application != 0 && application != APPLICATION) {
        return Mark::Foreign;
    }
    if layout == LAYOUT && application == APPLICATION {
        return Mark::Own;
    }
    Mark::Unmarked
}

/// Puts this program's numbers into a header, of which this is the beginning.
pub(crate) fn put_mark(head: &mut [u8])
    requires { MARK_END ≤ length head.old }
    ensures application { application_in head.new ≡ APPLICATION }
    ensures layout { layout_in head.new ≡ LAYOUT }
    ensures between { u32_at head.new 64 ≡ u32_at head.old 64 }
    ensures rest { SameOutside head.old head.new MARK_START MARK_END }
{
    put_u32(head, 60, LAYOUT);
    put_u32(head, 68, APPLICATION);
}

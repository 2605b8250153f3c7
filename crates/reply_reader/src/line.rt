ghost use Rattle.std.specs.Prelude.{◌≡◌, ◌++◌, ◌<◌, IfSome, IfNone, false, length};
ghost use Rattle.reply_reader.specs.Layouts.{IsOneLine, LineSays, has_feed};

use dav_parts::{ending, follows, line_at};
use jop_base::Dir;
use jop_target::Entry;

/// What a whole line of the body that lists a folder is, behind that of a file.
#[derive(Clone, Copy, Debug, PartialEq, Eq)]
pub(crate) enum Line {
    File(Entry),
    Last,
    /// None that may stand there.
    Other,
}

/// The first line of a text, its line feed with it, and what comes after it. None if the text has no line feed.
pub(crate) fn split_line(text: &[u8]) -> Option<(&[u8], &[u8])>
    ensures some { IfSome result
        (λ cut. (text.now ≡ cut.0.now ++ cut.1.now) × IsOneLine cut.0.now) }
    ensures less { IfSome result (λ cut. length cut.1.now < length text.now) }
    ensures none { IfNone result (has_feed text.now ≡ false) }
{
    for place in 0..text.len() {
        if text[place] == b'\n' {
            return Some(text.split_at(place + 1));
        }
    }
    None
}

/// What a line is behind that of a file, or behind those of the folder.
pub(crate) fn read_line(dir: Dir, before: &Option<Entry>, line: &[u8]) -> Line
    ensures { LineSays dir before.now line.now result }
{
    if line == ending() {
        return Line::Last;
    }
    match line_at(dir, line) {
        None => Line::Other,
        Some((entry, _)) => {
            if follows(before, &entry) {
                Line::File(entry)
            } else {
                Line::Other
            }
        }
    }
}

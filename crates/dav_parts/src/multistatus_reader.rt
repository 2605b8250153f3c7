ghost use Rattle.std.specs.Prelude.{◌≡◌, ◌++◌, ◌↔◌, ℕ, List, IfOk, IfSome, IfNone, IsTrue, MatchOption, None, false, slice_index};
ghost use Rattle.httpdate.specs.Date.{date_text};
ghost use Rattle.httpdate.specs.declared.date.HttpDate.{HttpDate as Date};
ghost use Rattle.jop_target.specs.declared.reply.Entry.{Entry};
ghost use Rattle.dav_parts.specs.Multistatus.{date_open, entry_close, folder_lines, has_open, IsFileAt, IsLineOf, ComesAfter, ReadsLines, ReadsMultistatus};

use crate::date::read_date;
use crate::layout::{date_open, ending, entry_close, folder_close, heading, href_open};
use crate::target::{after_prefix, dir_target};
use httpdate::HttpDate;
use jop_base::{Dir, Path, Seq};
use jop_target::Entry;
use std::alloc::{AllocError, Global};

/// How long a written date is, in bytes.
const DATE_LEN: usize = 29;

/// What comes before the first `<`, and the rest. None if there is no `<`.
fn split_at_open(text: &[u8]) -> Option<(&[u8], &[u8])>
    ensures some { IfSome result (λ cut. (text.now ≡ cut.0.now ++ cut.1.now)
        × (has_open cut.0.now ≡ false) × (slice_index cut.1.now 0 ≡ 60)) }
    ensures none { IfNone result (has_open text.now ≡ false) }
{
    for place in 0..text.len() {
        if text[place] == b'<' {
            return Some(text.split_at(place));
        }
    }
    None
}

/// What comes after two parts.
fn after_both<'a>(text: &'a [u8], first: &[u8], second: &[u8]) -> Option<&'a [u8]>
    ensures some { IfSome result (λ rest. text.now ≡ first.now ++ (second.now ++ rest.now)) }
    ensures none { IfNone result
        ((rest : List ℕ) → ¬ (text.now ≡ first.now ++ (second.now ++ rest))) }
{
    match after_prefix(text, first) {
        None => None,
        Some(text) => after_prefix(text, second),
    }
}

/// The name that a text begins with, and what comes after the opening of the date.
fn name_at(text: &[u8]) -> Option<(&[u8], &[u8])>
    ensures some { IfSome result (λ cut. (text.now ≡ cut.0.now ++ (date_open ++ cut.1.now))
        × (has_open cut.0.now ≡ false)) }
    ensures none { IfNone result ((name rest : List ℕ) → has_open name ≡ false
        → ¬ (text.now ≡ name ++ (date_open ++ rest))) }
{
    match split_at_open(text) {
        None => None,
        Some((name, text)) => match after_prefix(text, date_open()) {
            None => None,
            Some(rest) => Some((name, rest)),
        },
    }
}

/// The date that a text begins with, and what comes after the end of the line.
fn date_at(text: &[u8]) -> Option<(HttpDate, &[u8])>
    ensures some { IfSome result
        (λ cut. text.now ≡ date_text cut.0 ++ (entry_close ++ cut.1.now)) }
    ensures none { IfNone result ((date : Date) (rest : List ℕ)
        → ¬ (text.now ≡ date_text date ++ (entry_close ++ rest))) }
{
    if text.len() < DATE_LEN {
        return None;
    }
    let (shown, text) = text.split_at(DATE_LEN);
    match read_date(shown) {
        None => None,
        Some(date) => match after_prefix(text, entry_close()) {
            None => None,
            Some(rest) => Some((date, rest)),
        },
    }
}

/// The file of a name and of the rest of its line, and what comes after the line.
fn named_file<'a>(dir: Dir, name: &[u8], text: &'a [u8]) -> Option<(Entry, &'a [u8])>
    requires { has_open name.now ≡ false }
    ensures some { IfSome result
        (λ cut. IsFileAt dir cut.0 (name.now ++ (date_open ++ text.now)) cut.1.now) }
    ensures none { IfNone result ((entry : Entry) (rest : List ℕ)
        → ¬ (IsFileAt dir entry (name.now ++ (date_open ++ text.now)) rest)) }
{
    match date_at(text) {
        None => None,
        Some((date, rest)) => match Path::read(dir, name) {
            None => None,
            Some(path) => {
                let stamp = date.unix_secs() * 1_000;
                Some((Entry { path, stamp }, rest))
            }
        },
    }
}

/// The file of the rest of a line, and what comes after the line.
fn file_at(dir: Dir, text: &[u8]) -> Option<(Entry, &[u8])>
    ensures some { IfSome result (λ cut. IsFileAt dir cut.0 text.now cut.1.now) }
    ensures none { IfNone result
        ((entry : Entry) (rest : List ℕ) → ¬ (IsFileAt dir entry text.now rest)) }
{
    match name_at(text) {
        None => None,
        Some((name, text)) => named_file(dir, name, text),
    }
}

/// The file of the line that a text begins with, and what comes after the line. None if it doesn't
/// begin with a file's line.
pub fn line_at(dir: Dir, text: &[u8]) -> Option<(Entry, &[u8])>
    ensures some { IfSome result (λ cut. IsLineOf dir cut.0 text.now cut.1.now) }
    ensures none { IfNone result
        ((entry : Entry) (rest : List ℕ) → ¬ (IsLineOf dir entry text.now rest)) }
{
    match after_both(text, href_open(), dir_target(dir)) {
        None => None,
        Some(text) => file_at(dir, text),
    }
}

/// Whether a file comes after the one before it, in the order of paths.
pub fn follows(before: &Option<Entry>, entry: &Entry) -> bool
    ensures { IsTrue result ↔ ComesAfter before.now entry.now }
{
    match before {
        None => true,
        Some(before) => before.path.compare(&entry.path).is_lt(),
    }
}

/// The files of the lines. None if the text isn't of such lines, in rising order.
fn lines_at(alloc: Global, dir: Dir, text: &[u8]) -> Result<Option<Seq<Entry>>, AllocError>
    ensures { IfOk result (λ found. MatchOption found
        ((entries : List Entry) → ¬ (ReadsLines dir None entries text.now))
        (λ entries. ReadsLines dir None entries text.now)) }
{
    let mut entries = Seq::new(alloc);
    let mut before = None;
    let mut rest = text;
    while rest != ending() {
        let Some((entry, behind)) = line_at(dir, rest) else {
            return Ok(None);
        };
        if !follows(&before, &entry) {
            return Ok(None);
        }
        entries.push(entry)?;
        before = Some(entry);
        rest = behind;
    }
    Ok(Some(entries))
}

/// What comes after the lines of the folder itself. None if a text doesn't begin with them.
pub fn after_folder(dir: Dir, text: &[u8]) -> Option<&[u8]>
    ensures some { IfSome result (λ rest. text.now ≡ folder_lines dir rest.now) }
    ensures none { IfNone result ((rest : List ℕ) → ¬ (text.now ≡ folder_lines dir rest)) }
{
    match after_both(text, heading(), href_open()) {
        None => None,
        Some(text) => after_both(text, dir_target(dir), folder_close()),
    }
}

/// The files that a body lists, in one pass over it. None if the body isn't in the layout, a line's
/// file isn't of that folder, or the files don't rise.
pub fn read_multistatus(
    alloc: Global,
    dir: Dir,
    body: &[u8],
) -> Result<Option<Seq<Entry>>, AllocError>
    ensures { IfOk result (λ found. MatchOption found
        ((entries : List Entry) → ¬ (ReadsMultistatus dir entries body.now))
        (λ entries. ReadsMultistatus dir entries body.now)) }
{
    match after_folder(dir, body) {
        None => Ok(None),
        Some(lines) => {
            let found = lines_at(alloc, dir, lines)?;
            Ok(found)
        }
    }
}

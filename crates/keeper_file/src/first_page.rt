//! The first page of a file, on which the database lists what stands in it.

ghost use Rattle.std.specs.Prelude.{◌≡◌, ◌<◌, length};

use crate::tables::TABLES;
use sqlite_format::cell::payload_of;
use sqlite_format::{Node, Tree};
use sqlite_record::fields::Fields;
use sqlite_value::value::ValueRef;

/// How long the pages of a file are that this program made.
pub(crate) const PAGE_LEN: usize = 4096;

/// How long the header of a file is, behind which the list begins.
const HEADER_LEN: usize = 100;

/// How a table's text begins, and how it did that an earlier program asked for.
const MADE: &[u8] = b"CREATE TABLE ";

const MADE_EARLIER: &[u8] = b"CREATE TABLE IF NOT EXISTS ";

/// What a line of the list names.
#[derive(Clone, Copy, Debug, PartialEq, Eq)]
enum Listed {
    /// One of the tables.
    Table,
    /// What the database makes for itself.
    OfDatabase,
    Other,
}

/// What follows a beginning.
fn behind<'a>(text: &'a [u8], beginning: &[u8]) -> Option<&'a [u8]> {
    if text.starts_with(beginning) {
        Some(&text[beginning.len()..])
    } else {
        None
    }
}

/// Whether this is the text of that table.
fn is_text_of(text: &[u8], table: &[u8]) -> bool {
    match (behind(text, MADE_EARLIER), behind(table, MADE)) {
        (Some(rest), Some(wanted)) => rest == wanted,
        _ => text == table,
    }
}

/// Whether this is the text of one of the tables.
fn is_table(text: &[u8]) -> bool {
    for table in TABLES {
        if is_text_of(text, table.as_bytes()) {
            return true;
        }
    }
    false
}

/// What a line names: its second field is a name, and its last one the text.
fn named_by(line: &[u8]) -> Listed {
    let mut fields = Fields::new(line);
    let name = fields.nth(1);
    let text = fields.nth(2);
    match (name, text) {
        (Some(ValueRef::Text(name)), _) if name.starts_with(b"sqlite_") => Listed::OfDatabase,
        (_, Some(ValueRef::Text(text))) if is_table(text) => Listed::Table,
        _ => Listed::Other,
    }
}

/// What the line of this number names.
fn named_at(list: &Node, at: usize) -> Listed
    requires { at < list.now.count }
{
    let Some(cell) = list.body(at) else {
        return Listed::Other;
    };
    match payload_of(Tree::Table, PAGE_LEN, cell) {
        Some(line) if line.overflow == 0 => named_by(line.local),
        _ => Listed::Other,
    }
}

/// How many of the tables a list names. None if it names anything else.
fn count_tables(list: &Node) -> Option<usize> {
    let mut count = 0usize;
    for at in 0..list.count {
        match named_at(list, at) {
            Listed::Table => count = count.saturating_add(1),
            Listed::OfDatabase => {}
            Listed::Other => return None,
        }
    }
    Some(count)
}

/// Whether the first page of a file lists the tables, and nothing else but what the database makes for itself. False
/// also where the page doesn't tell: if the list goes on elsewhere, or pages are as long as another program wanted.
pub(crate) fn lists_tables(page: &[u8]) -> bool
    requires { length page.now ≡ PAGE_LEN }
{
    let Some(list) = Node::parse(page, HEADER_LEN) else {
        return false;
    };
    list.kind.leaf && matches!(list.kind.tree, Tree::Table) && count_tables(&list) == Some(5)
}

ghost use Rattle.std.specs.Prelude.{◌≡◌, ◌++◌, IfOk, OnOk, Ok, bytes_eq};
ghost use Rattle.std.specs.List.{list_any};
ghost use Rattle.item_text.specs.Props.{has_value};
ghost use Rattle.local_changes.specs.Amending.{is_entry};
ghost use Rattle.local_store.specs.Tables.{row_at};
ghost use Rattle.local_commands.specs.Commands.Lists.{ChecksTag, bearer, bearers, has_words, is_found};
ghost use Rattle.local_commands.specs.Commands.Lists.{is_in_trash, is_listed, is_plain_tag, label, listed_by};
ghost use Rattle.local_commands.specs.Commands.Lists.{line_if_listed, listing, list_lines, notes_of, row_line};
ghost use Rattle.local_commands.specs.Running.{only_text};
ghost use Rattle.local_commands.specs.Stages.{ChecksOr, MakesOr};

use crate::finding::has_part;
use crate::lines::title_of;
use crate::local_err::LocalErr;
use crate::work::{Work, only_text};
use item_kinds::Kind;
use item_text::{Item, prop};
use jop_base::{Bytes, Copied, Id, Seq, Text};
use local_changes::has_row;
use local_store::{Content, Row, Tables, has_kind};
use std::alloc::{AllocError, Global};

/// Which rows a list has.
#[derive(Debug, Drop)]
pub(crate) enum Listing {
    /// The notebooks.
    Books,
    /// The notes whose title or text has this.
    Found(Text),
    /// The notes in a notebook.
    NotesIn(Id),
    /// The notes that bear a tag.
    NotesWith(Id),
    /// The resources.
    Resources,
    /// The readable tags.
    Tags,
    /// The notes and notebooks in Joplin's wastebasket.
    Trash,
}

/// What `ls` lists: the notebooks, or the notes in one.
pub(crate) fn listed_by(book: Option<Id>) -> Listing
    ensures { result ≡ listed_by book }
{
    match book {
        Some(book) => Listing::NotesIn(book),
        None => Listing::Books,
    }
}

/// `NotFound` exactly if no row of this id is a tag.
pub(crate) fn check_tag(tables: &Tables, tag: &Id) -> Result<(), LocalErr>
    ensures { ChecksOr (ChecksTag tag.now (row_at tables.now tag.now)) result }
{
    if !has_row(tables, tag, Kind::TAG) {
        return Err(LocalErr::NotFound(*tag));
    }
    Ok(())
}

/// Prints a line for each row that is listed, in the order of their ids: the id, a space and the title, or
/// `(sealed)` in place of the title of a sealed one.
pub(crate) fn make_list(alloc: Global, tables: &Tables, which: Listing) -> Result<Work, LocalErr>
    ensures { MakesOr (λ made. made ≡ Ok (only_text (listing which tables.now.rows))) result }
{
    let text = list_rows(alloc, tables.rows.as_slice(), &which)?;
    Ok(only_text(alloc, text))
}

fn list_rows(alloc: Global, rows: &[Row], which: &Listing) -> Result<Bytes, AllocError>
    ensures { IfOk result (λ text. text ≡ listing which.now rows.now) }
{
    let notes = notes_of(alloc, which, rows)?;
    let mut text = Bytes::new(alloc);
    put_rows(&mut text, rows, which, notes.as_slice())?;
    Ok(text)
}

/// The ids of the notes that bear the tag, if the list is of such.
fn notes_of(alloc: Global, which: &Listing, rows: &[Row]) -> Result<Seq<Text>, AllocError>
    ensures { IfOk result (λ notes. notes ≡ notes_of which.now rows.now) }
{
    match which {
        Listing::NotesWith(tag) => bearers(alloc, tag, rows),
        _ => Ok(Seq::new(alloc)),
    }
}

/// What rows say of the ids of the notes that bear this tag.
fn bearers(alloc: Global, tag: &Id, rows: &[Row]) -> Result<Seq<Text>, AllocError>
    ensures { IfOk result (λ notes. notes ≡ bearers tag.now rows.now) }
{
    let mut notes = Seq::new(alloc);
    for row in rows {
        add_bearer(alloc, &mut notes, row.content.item(), tag)?;
    }
    Ok(notes)
}

/// Adds the note that the item says bears this tag.
fn add_bearer(alloc: Global, notes: &mut Seq<Text>, item: &Item, tag: &Id) -> Result<(), AllocError>
    ensures { OnOk result (notes.new ≡ notes.old ++ bearer tag.now item.now) }
{
    if !has_kind(item, Kind::NOTE_TAG) || !has_bytes(item, b"tag_id", tag.as_str().as_bytes()) {
        return Ok(());
    }
    match prop(item, b"note_id") {
        Some(note) => notes.push(note.copy(alloc)?),
        None => Ok(()),
    }
}

/// Puts a line behind the text for each row that is listed.
fn put_rows(
    text: &mut Bytes,
    rows: &[Row],
    which: &Listing,
    notes: &[Text],
) -> Result<(), AllocError>
    ensures { OnOk result (text.new ≡ text.old ++ list_lines notes.now which.now rows.now) }
{
    for row in rows {
        put_row(text, row, which, notes)?;
    }
    Ok(())
}

fn put_row(text: &mut Bytes, row: &Row, which: &Listing, notes: &[Text]) -> Result<(), AllocError>
    ensures { OnOk result (text.new ≡ text.old ++ line_if_listed notes.now which.now row.now) }
{
    if !is_listed(row, which, notes) {
        return Ok(());
    }
    put_line(text, row)
}

/// Whether the row is one of the list.
fn is_listed(row: &Row, which: &Listing, notes: &[Text]) -> bool
    ensures { result ≡ is_listed notes.now which.now row.now }
{
    let item = row.content.item();
    match which {
        Listing::Books => has_kind(item, Kind::FOLDER),
        Listing::Found(part) => is_found(&row.content, part),
        Listing::NotesIn(book) => {
            has_kind(item, Kind::NOTE) && has_bytes(item, b"parent_id", book.as_str().as_bytes())
        }
        Listing::NotesWith(_) => has_kind(item, Kind::NOTE) && is_among(&row.id, notes),
        Listing::Resources => has_kind(item, Kind::RESOURCE),
        Listing::Tags => is_plain_tag(&row.content),
        Listing::Trash => is_entry(item) && is_in_trash(item),
    }
}

/// Whether the item is a note or a notebook.
fn is_entry(item: &Item) -> bool
    ensures { result ≡ is_entry item.now }
{
    has_kind(item, Kind::NOTE) || has_kind(item, Kind::FOLDER)
}

/// Whether the topmost value of the key is this one.
fn has_bytes(item: &Item, key: &[u8], value: &[u8]) -> bool
    ensures { result ≡ has_value key.now value.now item.now.props }
{
    match prop(item, key) {
        Some(own) => own.as_slice() == value,
        None => false,
    }
}

/// Whether the id is one of these texts.
fn is_among(id: &Id, notes: &[Text]) -> bool
    ensures { result ≡ list_any (λ note. bytes_eq note id.now) notes.now }
{
    for note in notes {
        if note.as_slice() == id.as_str().as_bytes() {
            return true;
        }
    }
    false
}

/// Whether it is a readable note whose title or text has this.
fn is_found(content: &Content, part: &Text) -> bool
    ensures { result ≡ is_found part.now content.now }
{
    match content {
        Content::Plain(item) => has_kind(item, Kind::NOTE) && has_words(item, part),
        Content::Sealed(_) => false,
    }
}

/// Whether the title or the text of the item has this.
fn has_words(item: &Item, part: &Text) -> bool
    ensures { result ≡ has_words part.now item.now }
{
    has_part(title_of(item).as_bytes(), part.as_slice())
        || has_part(item.body.as_slice(), part.as_slice())
}

fn is_plain_tag(content: &Content) -> bool
    ensures { result ≡ is_plain_tag content.now }
{
    match content {
        Content::Plain(item) => has_kind(item, Kind::TAG),
        Content::Sealed(_) => false,
    }
}

/// Whether the item says when it was put into the wastebasket.
fn is_in_trash(item: &Item) -> bool
    ensures { result ≡ is_in_trash item.now }
{
    match prop(item, b"deleted_time") {
        Some(time) => time.as_str() != "" && time.as_str() != "0",
        None => false,
    }
}

fn put_line(text: &mut Bytes, row: &Row) -> Result<(), AllocError>
    ensures { OnOk result (text.new ≡ text.old ++ row_line row.now) }
{
    text.append(row.id.as_str().as_bytes())?;
    text.append(b" ")?;
    text.append(label(&row.content).as_bytes())?;
    text.append(b"\n")
}

/// The title, or what stands in its place.
fn label(content: &Content) -> &str
    ensures { result.now ≡ label content.now }
{
    match content {
        Content::Plain(item) => title_of(item),
        Content::Sealed(_) => "(sealed)",
    }
}

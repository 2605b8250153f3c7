ghost use Rattle.std.specs.Prelude.{◌≡◌, ◌∷◌, [], IfOk, IfSome};
ghost use Rattle.item_kinds.specs.Made.{IsLine};
ghost use Rattle.item_text.specs.Lines.{has, trimmed};
ghost use Rattle.jop_words.specs.Local.{add_words, attach_words, both, cat_words};
ghost use Rattle.jop_words.specs.Local.{conflicts_words, count_in, edit_to, edit_words};
ghost use Rattle.jop_words.specs.Local.{find_words, in_parent, is_line, line_in, local_alone};
ghost use Rattle.jop_words.specs.Local.{local_words, ls_words, mime_in, mkbook_words, move_words};
ghost use Rattle.jop_words.specs.Local.{rename_words, rm_words, tag_words, untag_words};
ghost use Rattle.local_commands.specs.Commands.{IsWellFormed};
ghost use Rattle.local_commands.specs.TypedIds.{typed_id};
ghost use Rattle.local_commands.specs.declared.command.LocalCommand.TheVariants as commands;

use crate::words::read_typed;
use item_text::trimmed;
use jop_base::{Copied, Text, let_go, read_decimal};
use local_commands::{LocalCommand, TypedId};
use std::alloc::{AllocError, Global};

/// A row for each command on the tables: its first word, and who reads the others.
pub(crate) fn read(
    alloc: Global,
    word: &Text,
    words: &[Text],
) -> Result<Option<LocalCommand>, AllocError>
    ensures means { IfOk result (λ command. command ≡ local_words word.now words.now) }
    ensures fit { IfOk result (λ command. IfSome command IsWellFormed) }
{
    match word.as_str() {
        "add" => read_add(alloc, words),
        "attach" => read_attach(alloc, words),
        "cat" => Ok(read_cat(words)),
        "conflicts" => Ok(read_conflicts(words)),
        "edit" => read_edit(alloc, words),
        "find" => read_find(alloc, words),
        "ls" => Ok(read_ls(words)),
        "mkbook" => read_mkbook(alloc, words),
        "move" => Ok(read_move(words)),
        "rename" => read_rename(alloc, words),
        "resources" => Ok(alone(LocalCommand::Resources, words)),
        "rm" => Ok(read_rm(words)),
        "tag" => read_tag(alloc, words),
        "tags" => Ok(alone(LocalCommand::Tags, words)),
        "trash" => Ok(alone(LocalCommand::Trash, words)),
        "untag" => Ok(read_untag(words)),
        _ => Ok(None),
    }
}

// ---- single words

fn has(word: &Text, byte: u8) -> bool
    ensures { result ≡ has byte word.now }
{
    word.as_slice().iter().any(|other| *other == byte)
}

fn is_line(word: &Text) -> bool
    ensures { result ≡ is_line word.now }
{
    !has(word, b'\n') && !has(word, b'\r')
}

/// A title or a name.
#[tactic(auto, using(crate::proofs::Lines::line_of))]
fn read_line(alloc: Global, word: &Text) -> Result<Option<Text>, AllocError>
    ensures means { IfOk result (λ line. line ≡ line_in word.now) }
    ensures fit { IfOk result (λ line. IfSome line IsLine) }
{
    if !is_line(word) {
        return Ok(None);
    }
    let line = word.copy(alloc)?;
    Ok(Some(line))
}

/// An id as it is typed, and a title.
fn read_id_and_line(
    alloc: Global,
    id: &Text,
    line: &Text,
) -> Result<Option<(TypedId, Text)>, AllocError>
    ensures means { IfOk result
        (λ pair. pair ≡ both (λ id line. (id, line)) (typed_id id.now) (line_in line.now)) }
    ensures fit { IfOk result (λ pair. IfSome pair (λ pair. IsLine pair.1)) }
{
    let Some(id) = read_typed(id) else {
        return Ok(None);
    };
    let Some(line) = read_line(alloc, line)? else {
        return Ok(None);
    };
    Ok(Some((id, line)))
}

/// A type of content.
#[tactic(auto, using(crate::proofs::Lines::line_of))]
fn read_mime(alloc: Global, word: &Text) -> Result<Option<Text>, AllocError>
    ensures means { IfOk result (λ mime. mime ≡ mime_in word.now) }
    ensures line { IfOk result (λ mime. IfSome mime IsLine) }
    ensures trimmed { IfOk result (λ mime. IfSome mime (λ mime. trimmed mime ≡ mime)) }
{
    if !is_line(word) || trimmed(word.as_str()) != word.as_str() {
        return Ok(None);
    }
    let mime = word.copy(alloc)?;
    Ok(Some(mime))
}

/// The number of a conflict note.
fn read_count(word: &Text) -> Option<u64>
    ensures { result ≡ count_in word.now }
{
    let digits = word.as_slice();
    if digits.len() > 20 {
        return None;
    }
    read_decimal(digits)
}

// ---- the words of each command

/// A command with no words behind its first one.
fn alone(command: LocalCommand, words: &[Text]) -> Option<LocalCommand>
    ensures means { result ≡ local_alone command words.now }
    ensures fit { IsWellFormed command → IfSome result IsWellFormed }
{
    if words.is_empty() {
        return Some(command);
    }
    let_go(command);
    None
}

fn read_add(alloc: Global, words: &[Text]) -> Result<Option<LocalCommand>, AllocError>
    ensures means { IfOk result (λ command. command ≡ add_words words.now) }
    ensures fit { IfOk result (λ command. IfSome command IsWellFormed) }
{
    match words {
        [book, title] => match read_id_and_line(alloc, book, title)? {
            Some((book, title)) => Ok(Some(LocalCommand::Add { book, title })),
            None => Ok(None),
        },
        _ => Ok(None),
    }
}

fn read_attach(alloc: Global, words: &[Text]) -> Result<Option<LocalCommand>, AllocError>
    ensures means { IfOk result (λ command. command ≡ attach_words words.now) }
    ensures fit { IfOk result (λ command. IfSome command IsWellFormed) }
{
    match words {
        [name, mime] => read_attach_as(alloc, name, mime),
        _ => Ok(None),
    }
}

fn read_attach_as(
    alloc: Global,
    name: &Text,
    mime: &Text,
) -> Result<Option<LocalCommand>, AllocError>
    ensures means { IfOk result
        (λ command. command ≡ both commands.Attach (line_in name.now) (mime_in mime.now)) }
    ensures fit { IfOk result (λ command. IfSome command IsWellFormed) }
{
    let Some(name) = read_line(alloc, name)? else {
        return Ok(None);
    };
    let Some(mime) = read_mime(alloc, mime)? else {
        return Ok(None);
    };
    Ok(Some(LocalCommand::Attach { name, mime }))
}

fn read_cat(words: &[Text]) -> Option<LocalCommand>
    ensures means { result ≡ cat_words words.now }
    ensures fit { IfSome result IsWellFormed }
{
    match words {
        [id] => Some(LocalCommand::Cat {
            id: read_typed(id)?,
        }),
        _ => None,
    }
}

fn read_conflicts(words: &[Text]) -> Option<LocalCommand>
    ensures means { result ≡ conflicts_words words.now }
    ensures fit { IfSome result IsWellFormed }
{
    match words {
        [] => Some(LocalCommand::Conflicts),
        [option, number] if option.as_str() == "--clear" => Some(LocalCommand::Clear {
            number: read_count(number)?,
        }),
        [option, number] if option.as_str() == "--show" => Some(LocalCommand::Show {
            number: read_count(number)?,
        }),
        _ => None,
    }
}

fn read_edit(alloc: Global, words: &[Text]) -> Result<Option<LocalCommand>, AllocError>
    ensures means { IfOk result (λ command. command ≡ edit_words words.now) }
    ensures fit { IfOk result (λ command. IfSome command IsWellFormed) }
{
    match words {
        [id] => Ok(read_edit_body(id)),
        [id, option, title] if option.as_str() == "--title" => {
            let Some((id, title)) = read_id_and_line(alloc, id, title)? else {
                return Ok(None);
            };
            let title = Some(title);
            Ok(Some(LocalCommand::Edit { id, title }))
        }
        _ => Ok(None),
    }
}

fn read_edit_body(id: &Text) -> Option<LocalCommand>
    ensures means { result ≡ edit_words (id.now ∷ []) }
    ensures fit { IfSome result IsWellFormed }
{
    Some(LocalCommand::Edit {
        id: read_typed(id)?,
        title: None,
    })
}

/// Any text.
fn read_find(alloc: Global, words: &[Text]) -> Result<Option<LocalCommand>, AllocError>
    ensures means { IfOk result (λ command. command ≡ find_words words.now) }
    ensures fit { IfOk result (λ command. IfSome command IsWellFormed) }
{
    match words {
        [part] => Ok(Some(LocalCommand::Find {
            part: part.copy(alloc)?,
        })),
        _ => Ok(None),
    }
}

fn read_ls(words: &[Text]) -> Option<LocalCommand>
    ensures means { result ≡ ls_words words.now }
    ensures fit { IfSome result IsWellFormed }
{
    match words {
        [] => Some(LocalCommand::Ls { book: None }),
        [book] => Some(LocalCommand::Ls {
            book: Some(read_typed(book)?),
        }),
        [option, tag] if option.as_str() == "--tag" => Some(LocalCommand::Tagged {
            tag: read_typed(tag)?,
        }),
        _ => None,
    }
}

fn read_mkbook(alloc: Global, words: &[Text]) -> Result<Option<LocalCommand>, AllocError>
    ensures means { IfOk result (λ command. command ≡ mkbook_words words.now) }
    ensures fit { IfOk result (λ command. IfSome command IsWellFormed) }
{
    match words {
        [title] => read_mkbook_top(alloc, title),
        [title, option, parent] if option.as_str() == "--in" => {
            read_mkbook_in(alloc, title, parent)
        }
        _ => Ok(None),
    }
}

fn read_mkbook_top(alloc: Global, title: &Text) -> Result<Option<LocalCommand>, AllocError>
    ensures means { IfOk result (λ command. command ≡ mkbook_words (title.now ∷ [])) }
    ensures fit { IfOk result (λ command. IfSome command IsWellFormed) }
{
    let Some(title) = read_line(alloc, title)? else {
        return Ok(None);
    };
    Ok(Some(LocalCommand::Mkbook {
        title,
        parent: None,
    }))
}

fn read_mkbook_in(
    alloc: Global,
    title: &Text,
    parent: &Text,
) -> Result<Option<LocalCommand>, AllocError>
    ensures means { IfOk result
        (λ command. command ≡ both in_parent (line_in title.now) (typed_id parent.now)) }
    ensures fit { IfOk result (λ command. IfSome command IsWellFormed) }
{
    let Some(title) = read_line(alloc, title)? else {
        return Ok(None);
    };
    let Some(parent) = read_typed(parent) else {
        return Ok(None);
    };
    Ok(Some(LocalCommand::Mkbook {
        title,
        parent: Some(parent),
    }))
}

fn read_move(words: &[Text]) -> Option<LocalCommand>
    ensures means { result ≡ move_words words.now }
    ensures fit { IfSome result IsWellFormed }
{
    match words {
        [id, book] => Some(LocalCommand::Move {
            id: read_typed(id)?,
            book: read_typed(book)?,
        }),
        _ => None,
    }
}

fn read_rename(alloc: Global, words: &[Text]) -> Result<Option<LocalCommand>, AllocError>
    ensures means { IfOk result (λ command. command ≡ rename_words words.now) }
    ensures fit { IfOk result (λ command. IfSome command IsWellFormed) }
{
    match words {
        [id, title] => match read_id_and_line(alloc, id, title)? {
            Some((id, title)) => Ok(Some(LocalCommand::Rename { id, title })),
            None => Ok(None),
        },
        _ => Ok(None),
    }
}

fn read_rm(words: &[Text]) -> Option<LocalCommand>
    ensures means { result ≡ rm_words words.now }
    ensures fit { IfSome result IsWellFormed }
{
    match words {
        [id] => Some(LocalCommand::Rm {
            id: read_typed(id)?,
        }),
        _ => None,
    }
}

fn read_tag(alloc: Global, words: &[Text]) -> Result<Option<LocalCommand>, AllocError>
    ensures means { IfOk result (λ command. command ≡ tag_words words.now) }
    ensures fit { IfOk result (λ command. IfSome command IsWellFormed) }
{
    match words {
        [note, title] => match read_id_and_line(alloc, note, title)? {
            Some((note, title)) => Ok(Some(LocalCommand::Tag { note, title })),
            None => Ok(None),
        },
        _ => Ok(None),
    }
}

fn read_untag(words: &[Text]) -> Option<LocalCommand>
    ensures means { result ≡ untag_words words.now }
    ensures fit { IfSome result IsWellFormed }
{
    match words {
        [note, tag] => Some(LocalCommand::Untag {
            note: read_typed(note)?,
            tag: read_typed(tag)?,
        }),
        _ => None,
    }
}

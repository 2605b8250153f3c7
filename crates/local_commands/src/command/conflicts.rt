ghost use Rattle.std.specs.Prelude.{◌≡◌, ◌∷◌, ◌++◌, [], OnOk, Ok};
ghost use Rattle.std.specs.Fmt.{decimal};
ghost use Rattle.local_commands.specs.Commands.Conflicts.{note_line, note_lines};
ghost use Rattle.local_commands.specs.Running.{only_text};
ghost use Rattle.local_commands.specs.Stages.{MakesOr};

use crate::lines::title_of;
use crate::local_err::LocalErr;
use crate::work::{Work, only_text};
use itoa::Buffer;
use jop_base::Bytes;
use local_store::{ConflictNote, Tables};
use std::alloc::{AllocError, Global};

/// Prints a line for each conflict note, in the order in which they were made: its number, the id of
/// the item and its title, with a space between each two.
pub(crate) fn make_list(alloc: Global, tables: &Tables) -> Result<Work, LocalErr>
    ensures { MakesOr (λ made. made ≡ Ok (only_text (note_lines tables.now.conflicts))) result }
{
    let mut text = Bytes::new(alloc);
    put_notes(&mut text, tables.conflicts.as_slice())?;
    Ok(only_text(alloc, text))
}

fn put_notes(text: &mut Bytes, notes: &[ConflictNote]) -> Result<(), AllocError>
    ensures { OnOk result (text.new ≡ text.old ++ note_lines notes.now) }
{
    for note in notes {
        put_note(text, note)?;
    }
    Ok(())
}

fn put_note(text: &mut Bytes, note: &ConflictNote) -> Result<(), AllocError>
    ensures { OnOk result (text.new ≡ text.old ++ note_line note.now) }
{
    put_numbers(text, note)?;
    text.append(title_of(&note.item).as_bytes())?;
    text.append(b"\n")
}

/// The number and the id, with a space behind each.
fn put_numbers(text: &mut Bytes, note: &ConflictNote) -> Result<(), AllocError>
    ensures { OnOk result
        (text.new ≡ text.old ++ decimal note.now.number ++ 32 ∷ note.now.note ++ 32 ∷ []) }
{
    text.append(Buffer::new().format(note.number).as_bytes())?;
    text.append(b" ")?;
    text.append(note.note.as_str().as_bytes())?;
    text.append(b" ")
}

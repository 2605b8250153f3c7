ghost use Rattle.item_kinds.specs.Made.{IsLine};
ghost use Rattle.local_commands.specs.Commands.Add.{add_plan};
ghost use Rattle.local_commands.specs.Stages.{IsReadyFor, MakesWork};

use crate::drawing::{Drawing, one_id};
use crate::intake::{BODY, text_of};
use crate::lines::id_line;
use crate::local_err::LocalErr;
use crate::needs::Needs;
use crate::supply::Supply;
use crate::work::{Work, one_change};
use jop_base::{Id, Text};
use local_changes::new_note;
use local_store::Tables;
use std::alloc::Global;

/// What it needs beside the tables.
pub(crate) const NEEDS: Needs = Needs {
    intake: Some(BODY),
    clock: true,
    draws: Drawing::OneId,
};

/// Makes a note in a notebook, of which the whole input is the body, and prints its id on a line of its
/// own. `TooLarge` exactly if the note's text is.
pub(crate) fn make_note(
    alloc: Global,
    tables: &Tables,
    book: Id,
    title: Text,
    supply: Supply,
) -> Result<Work, LocalErr>
    requires title { IsLine title }
    requires ready { IsReadyFor (add_plan book title) tables.now supply }
    ensures { MakesWork (add_plan book title) tables.now supply result }
{
    let id = one_id(supply.ids);
    let body = text_of(alloc, supply.input)?;
    let change = new_note(alloc, tables, id, book, title, body, supply.now)?;
    Ok(one_change(alloc, change, id_line(alloc, &id)?)?)
}

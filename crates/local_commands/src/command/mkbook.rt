ghost use Rattle.item_kinds.specs.Made.{IsLine};
ghost use Rattle.local_commands.specs.Commands.Mkbook.{mkbook_plan};
ghost use Rattle.local_commands.specs.Stages.{IsReadyFor, MakesWork};

use crate::drawing::{Drawing, one_id};
use crate::lines::id_line;
use crate::local_err::LocalErr;
use crate::needs::Needs;
use crate::supply::Supply;
use crate::work::{Work, one_change};
use jop_base::{Id, Text};
use local_changes::new_book;
use local_store::Tables;
use std::alloc::Global;

/// What it needs beside the tables.
pub(crate) const NEEDS: Needs = Needs {
    intake: None,
    clock: true,
    draws: Drawing::OneId,
};

/// Makes a notebook, at the top or in the parent that is given, and prints its id on a line of its own.
pub(crate) fn make_book(
    alloc: Global,
    tables: &Tables,
    title: Text,
    parent: Option<Id>,
    supply: Supply,
) -> Result<Work, LocalErr>
    requires title { IsLine title }
    requires ready { IsReadyFor (mkbook_plan title parent) tables.now supply }
    ensures { MakesWork (mkbook_plan title parent) tables.now supply result }
{
    let id = one_id(supply.ids);
    let change = new_book(alloc, tables, id, parent, title, supply.now)?;
    Ok(one_change(alloc, change, id_line(alloc, &id)?)?)
}

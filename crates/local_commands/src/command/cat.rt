ghost use Rattle.std.specs.Prelude.{◌≡◌, None};
ghost use Rattle.local_store.specs.Sound.{IsSound};
ghost use Rattle.local_store.specs.Tables.{row_at};
ghost use Rattle.local_commands.specs.Commands.Cat.{ChecksItem, IsLent, MakesText, plain_at};
ghost use Rattle.local_commands.specs.Stages.{ChecksOr, MakesOr};

use crate::local_err::LocalErr;
use crate::work::{Work, only_text};
use item_text::{Item, write_item};
use jop_base::Id;
use local_store::{Content, Tables};
use std::alloc::Global;

/// `NotFound` exactly if there is no row of this id, and `Sealed` exactly if that is sealed.
pub(crate) fn check_item(tables: &Tables, id: &Id) -> Result<(), LocalErr>
    ensures { ChecksOr (ChecksItem id.now (row_at tables.now id.now)) result }
{
    plain_at(tables, id)?;
    Ok(())
}

/// Prints the text of the item of this id, with nothing added.
pub(crate) fn make_text(alloc: Global, tables: &Tables, id: &Id) -> Result<Work, LocalErr>
    requires sound { IsSound tables.now }
    requires passed { ChecksItem id.now (row_at tables.now id.now) None }
    ensures { MakesOr (MakesText (plain_at id.now (row_at tables.now id.now))) result }
{
    let item = plain_at(tables, id)?;
    Ok(only_text(alloc, write_item(alloc, item)?))
}

/// The item of an id, which must be readable.
fn plain_at<'a>(tables: &'a Tables, id: &Id) -> Result<&'a Item, LocalErr>
    ensures { IsLent (plain_at id.now (row_at tables.now id.now)) result }
{
    match tables.rows.at(id) {
        None => Err(LocalErr::NotFound(*id)),
        Some(row) => match &row.content {
            Content::Plain(item) => Ok(item),
            Content::Sealed(_) => Err(LocalErr::Sealed(*id)),
        },
    }
}

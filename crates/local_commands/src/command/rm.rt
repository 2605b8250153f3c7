ghost use Rattle.std.specs.Prelude.{◌≡◌, None};
ghost use Rattle.local_changes.specs.Makers.{removed};
ghost use Rattle.local_commands.specs.Commands.Rm.{ChecksRemoval, MakesRemoval};
ghost use Rattle.local_commands.specs.Stages.{ChecksOr, MakesOr};

use crate::local_err::LocalErr;
use crate::work::{Work, one_change};
use jop_base::{Bytes, Id, let_go};
use local_changes::removed;
use local_store::Tables;
use std::alloc::Global;

/// `NotFound` exactly if there is no row of this id, and `NotEmpty` exactly if it is a notebook in
/// which notes or notebooks are.
pub(crate) fn check_removal(tables: &Tables, id: &Id) -> Result<(), LocalErr>
    ensures { ChecksOr (ChecksRemoval (removed tables.now id.now)) result }
{
    let_go(removed(tables, *id)?);
    Ok(())
}

/// Removes the item of this id, and prints nothing.
pub(crate) fn make_removal(alloc: Global, tables: &Tables, id: Id) -> Result<Work, LocalErr>
    requires { ChecksRemoval (removed tables.now id) None }
    ensures { MakesOr (MakesRemoval (removed tables.now id)) result }
{
    let change = removed(tables, id)?;
    Ok(one_change(alloc, change, Bytes::new(alloc))?)
}

ghost use Rattle.std.specs.Prelude.{◌≡◌};
ghost use Rattle.client.specs.Outside.{AreKeptTables};
ghost use Rattle.local_commands.specs.Commands.{IsWellFormed, plan_of};
ghost use Rattle.local_commands.specs.Running.{Runs};
ghost use Rattle.local_commands.specs.Sparing.{Spares};

use crate::acting::do_all;
use crate::command::LocalCommand;
use crate::local_err::LocalErr;
use crate::supply::fetch_supply;
use client::Outside;
use jop_base::Bytes;
use keeper::KeeperErr;
use local_store::Tables;
use std::alloc::Global;

/// Does what a command says, and answers the text that it prints.
pub fn obey<O: Outside>(
    alloc: Global,
    outside: &mut O,
    command: LocalCommand,
) -> Result<Bytes, LocalErr>
    requires { IsWellFormed command }
    ensures runs { Runs (plan_of command) (O.now outside.old) result (O.now outside.new) }

    // Whatever it comes to.
    ensures spares { Spares (plan_of command) (O.now outside.old) (O.now outside.new) }
    ensures stays { O.place outside.new ≡ O.place outside.old }
{
    let tables = outside.read_tables(alloc)?;
    obey_on(alloc, outside, &tables, command)
}

/// The same on the tables as they were read: they are asked, what else it needs is fetched, its work is
/// made of all that, and then it is done.
fn obey_on<O: Outside>(
    alloc: Global,
    outside: &mut O,
    tables: &Tables,
    command: LocalCommand,
) -> Result<Bytes, LocalErr>
    requires formed { IsWellFormed command }
    requires kept { AreKeptTables (O.now outside.old).keeper tables.now }
    ensures runs { Runs (plan_of command) (O.now outside.old) result (O.now outside.new) }
    ensures spares { Spares (plan_of command) (O.now outside.old) (O.now outside.new) }
    ensures stays { O.place outside.new ≡ O.place outside.old }
{
    command.check(tables)?;
    let supply = fetch_supply(alloc, outside, tables, &command)?;
    let work = command.make(alloc, tables, supply)?;
    do_all(alloc, outside, work.acts)?;
    Ok(work.text)
}

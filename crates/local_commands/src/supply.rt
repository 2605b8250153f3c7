ghost use Rattle.std.specs.Prelude.{◌≡◌};
ghost use Rattle.local_commands.specs.Commands.{plan_of};
ghost use Rattle.local_commands.specs.Running.{IsAllowedBy};
ghost use Rattle.local_commands.specs.Stages.{Supplies};

use crate::clock::look_at_clock;
use crate::command::LocalCommand;
use crate::drawing::{Ids, draw_ids};
use crate::intake::take_input;
use crate::local_err::LocalErr;
use client::Outside;
use jop_base::Bytes;
use local_store::Tables;
use std::alloc::Global;

/// What a command needs beside the tables, once it has it.
#[derive(Debug, Drop)]
pub(crate) struct Supply {
    /// The whole input; empty of a command that takes none.
    pub(crate) input: Bytes,
    /// In milliseconds since 1970; 0 of a command that doesn't look at the clock.
    pub(crate) now: u64,
    pub(crate) ids: Ids,
}

/// Takes the input, looks at the clock, and draws ids, as the command needs them.
pub(crate) fn fetch_supply<O: Outside>(
    alloc: Global,
    outside: &mut O,
    tables: &Tables,
    command: &LocalCommand,
) -> Result<Supply, LocalErr>
    requires { IsAllowedBy (plan_of command.now) (O.now outside.old) tables.now }
    ensures supplies { Supplies (plan_of command.now) tables.now
        (O.now outside.old) result (O.now outside.new) }
    ensures stays { O.place outside.new ≡ O.place outside.old }
{
    let needs = command.needs();
    let input = take_input(alloc, outside, needs.intake)?;
    let Ok(now) = look_at_clock(outside, needs.clock) else {
        return Err(LocalErr::ClockFault);
    };
    let Ok(ids) = draw_ids(outside, tables, needs.draws) else {
        return Err(LocalErr::EntropyFault);
    };
    Ok(Supply { input, now, ids })
}

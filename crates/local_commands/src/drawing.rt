ghost use Rattle.std.specs.Prelude.{◌≡◌};
ghost use Rattle.local_commands.specs.Drawing.{AreDrawn};
ghost use Rattle.local_commands.specs.Stages.{DrawsAll, DrawsAlone, NewIdOr, SecondIdOr};
ghost use Rattle.local_commands.specs.declared.drawing.Drawing.TheVariants.{OneId, TwoIds};
ghost use Rattle.local_commands.specs.declared.drawing.Ids.TheVariants.{One, Two};

use client::Outside;
use jop_base::Id;
use jop_outside::Failed;
use local_changes::free_id;
use local_store::Tables;

/// How many ids a command draws.
#[derive(Clone, Copy, Debug, PartialEq, Eq)]
pub(crate) enum Drawing {
    NoId,
    OneId,
    TwoIds,
}

/// The ids that were drawn.
#[derive(Clone, Copy, Debug, PartialEq, Eq)]
pub(crate) enum Ids {
    None,
    One(Id),
    Two(Id, Id),
}

/// So many new ids.
pub(crate) fn draw_ids<O: Outside>(
    outside: &mut O,
    tables: &Tables,
    drawing: Drawing,
) -> Result<Ids, Failed>
    ensures draws { DrawsAll drawing tables.now (O.now outside.old) result (O.now outside.new) }
    ensures stays { O.place outside.new ≡ O.place outside.old }
{
    match drawing {
        Drawing::NoId => Ok(Ids::None),
        Drawing::OneId => {
            let id = new_id(outside, tables)?;
            Ok(Ids::One(id))
        }
        Drawing::TwoIds => {
            let id = new_id(outside, tables)?;
            let second = second_id(outside, tables, &id)?;
            Ok(Ids::Two(id, second))
        }
    }
}

/// The first of a drawn id and its followers that no row and no deletion has.
fn new_id<O: Outside>(outside: &mut O, tables: &Tables) -> Result<Id, Failed>
    ensures draws { DrawsAlone (NewIdOr tables.now)
        (O.now outside.old) result (O.now outside.new) }
    ensures stays { O.place outside.new ≡ O.place outside.old }
{
    let drawn = outside.draw_id()?;
    Ok(free_id(tables, drawn))
}

/// The first of a drawn id and its followers that no row and no deletion has, and that isn't this one.
fn second_id<O: Outside>(outside: &mut O, tables: &Tables, other: &Id) -> Result<Id, Failed>
    ensures draws { DrawsAlone (SecondIdOr tables.now other.now)
        (O.now outside.old) result (O.now outside.new) }
    ensures stays { O.place outside.new ≡ O.place outside.old }
{
    let drawn = outside.draw_id()?;
    let id = free_id(tables, drawn);
    if id != *other {
        return Ok(id);
    }
    Ok(free_id(tables, id.after()))
}

/// The one id that was drawn.
pub(crate) fn one_id(ids: Ids) -> Id
    requires { AreDrawn OneId ids }
    ensures { ids ≡ One result }
{
    match ids {
        Ids::One(id) => id,
        _ => unreachable!(),
    }
}

/// The two ids that were drawn.
pub(crate) fn two_ids(ids: Ids) -> (Id, Id)
    requires { AreDrawn TwoIds ids }
    ensures { ids ≡ Two result.0 result.1 }
{
    match ids {
        Ids::Two(id, second) => (id, second),
        _ => unreachable!(),
    }
}

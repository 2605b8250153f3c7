ghost use Rattle.std.specs.Prelude.{◌≡◌, ◌≤◌, true};
ghost use Rattle.item_kinds.specs.Made.{IsLine};
ghost use Rattle.item_text.specs.Lines.{trimmed};
ghost use Rattle.jop_base.specs.Times.{last_time};
ghost use Rattle.local_commands.specs.Commands.Attach.{MakesResource};
ghost use Rattle.local_commands.specs.Drawing.{AreDrawn};
ghost use Rattle.local_commands.specs.Stages.{MakesActsOr};
ghost use Rattle.local_commands.specs.declared.drawing.Drawing.TheVariants.{OneId};

use crate::act::Act;
use crate::drawing::{Drawing, one_id};
use crate::intake::Intake;
use crate::lines::id_line;
use crate::local_err::LocalErr;
use crate::needs::Needs;
use crate::supply::Supply;
use crate::work::Work;
use jop_base::{Id, Seq, Text};
use keeper::Blob;
use local_changes::new_resource;
use std::alloc::{AllocError, Global};

/// The most bytes of a resource that is taken: 32 MiB.
pub const BLOB_LIMIT: usize = 33_554_432;

/// What it needs beside the tables.
pub(crate) const NEEDS: Needs = Needs {
    intake: Some(Intake {
        limit: BLOB_LIMIT as u32,
        text: false,
    }),
    clock: true,
    draws: Drawing::OneId,
};

/// Makes a resource, of which the whole input is the bytes, and prints its id on a line of its own. The
/// bytes are saved before the resource is.
pub(crate) fn make_resource(
    alloc: Global,
    name: Text,
    mime: Text,
    supply: Supply,
) -> Result<Work, LocalErr>
    requires name { IsLine name }
    requires mime { IsLine mime }
    requires trimmed { trimmed mime ≡ mime }
    requires drawn { AreDrawn OneId supply.ids }
    requires time { supply.now ≤ last_time }
    ensures { MakesActsOr true (MakesResource name mime supply.input supply.now supply.ids)
        result }
{
    let id = one_id(supply.ids);
    let len = supply.input.len() as u64;
    let change = new_resource(alloc, id, name, mime, len, supply.now)?;
    let blob = Blob {
        id,
        bytes: supply.input,
    };
    let mut acts = Seq::new(alloc);
    acts.push(Act::SaveBlob(blob))?;
    acts.push(Act::MakeChange(change))?;
    Ok(Work {
        acts,
        text: id_line(alloc, &id)?,
    })
}

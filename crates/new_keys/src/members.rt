ghost use Rattle.std.specs.Prelude.{◌≡◌, ◌++◌, ◌∷◌, [], IfOk, OnOk};
ghost use Rattle.new_keys.specs.Made.{kept_member, made_members};

use jop_base::{Seq, Text, decimal_text};
use std::alloc::{AllocError, Global};
use sync_info::Member;

/// Adds a member, whose value is this JSON.
fn add_member(
    alloc: Global,
    members: &mut Seq<Member>,
    name: &str,
    json: Text,
) -> Result<(), AllocError>
    ensures { OnOk result (members.new ≡ members.old ++ kept_member name.now json ∷ []) }
{
    let name = Text::of(alloc, name)?;
    members.push(Member { name, json })
}

/// Adds a member, whose value is written so as JSON.
fn add_written(
    alloc: Global,
    members: &mut Seq<Member>,
    name: &str,
    json: &str,
) -> Result<(), AllocError>
    ensures { OnOk result (members.new ≡ members.old ++ kept_member name.now json.now ∷ []) }
{
    let json = Text::of(alloc, json)?;
    add_member(alloc, members, name, json)
}

/// The other members of a record that is made at this time.
pub(crate) fn made_members(alloc: Global, now: u64) -> Result<Seq<Member>, AllocError>
    ensures { IfOk result (λ members. members ≡ made_members now) }
{
    let mut members = Seq::new(alloc);
    add_written(alloc, &mut members, "checksum", "\"\"")?;
    let time = decimal_text(alloc, now)?;
    add_member(alloc, &mut members, "created_time", time)?;
    let method = decimal_text(alloc, 4)?;
    add_member(alloc, &mut members, "encryption_method", method)?;
    add_written(alloc, &mut members, "source_application", "\"jop\"")?;
    Ok(members)
}

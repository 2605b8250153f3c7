ghost use Rattle.std.specs.Prelude.{◌≡◌, [], ◌∷◌, ◌++◌, false, IfOk};
ghost use Rattle.serde_json.specs.View.{view, members_view};
ghost use Rattle.serde_json.specs.Written.{has_float, members_have_float, compact_text};
ghost use Rattle.sync_info.specs.Read.{kept_of, kept_in};

use crate::holder::Holder;
use crate::member::Member;
use jop_base::Seq;
use serde_json::{Map, Value};
use std::alloc::{AllocError, Global};

/// Keeps one member more.
fn keep(alloc: Global, kept: &mut Seq<Member>, name: &str, value: &Value) -> Result<(), AllocError>
    requires { has_float (view value.now) ≡ false }
    ensures { IfOk result (λ _. kept.new
        ≡ kept.old ++ record { name = name.now; json = compact_text (view value.now) } ∷ []) }
{
    let member = Member::new(alloc, name, value)?;
    kept.push(member)?;
    Ok(())
}

/// The members that are not the holder's own.
fn kept_of(
    alloc: Global,
    members: &Map<String, Value>,
    of: Holder,
) -> Result<Seq<Member>, AllocError>
    requires { members_have_float (members_view members.now.entries) ≡ false }
    ensures { IfOk result (λ kept. kept ≡ kept_of of (members_view members.now.entries)) }
{
    let mut kept = Seq::new(alloc);
    for (name, value) in members.iter() {
        if !of.is_own(name.as_str()) {
            keep(alloc, &mut kept, name.as_str(), value)?;
        }
    }
    Ok(kept)
}

/// The members of an object that are not its own. What is no object has none.
pub(crate) fn kept_in(alloc: Global, value: &Value, of: Holder) -> Result<Seq<Member>, AllocError>
    requires { has_float (view value.now) ≡ false }
    ensures { IfOk result (λ kept. kept ≡ kept_in of (view value.now)) }
{
    match value.as_object() {
        Some(members) => kept_of(alloc, members, of),
        None => Ok(Seq::new(alloc)),
    }
}

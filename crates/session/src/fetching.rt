ghost use Rattle.std.specs.Prelude.{◌≡◌};
ghost use Rattle.law_licences.specs.Items.{is_resource};
ghost use Rattle.local_store.specs.Rows.{item_of};
ghost use Rattle.session.specs.Sessions.{FetchesOfOr};
ghost use Rattle.session.specs.Work.{IsAtWork};

use crate::session::Session;
use conflicts::StepErr;
use item_kinds::Kind;
use jop_base::Id;
use local_store::{Content, has_kind};
use std::alloc::Global;

fn is_resource(content: &Content) -> bool
    ensures { result ≡ is_resource (item_of content.now) }
{
    has_kind(content.item(), Kind::RESOURCE)
}

/// Gets the bytes that belong to an item, if it is a resource, and saves them if there are any.
pub fn fetch_bytes_of<W: Session>(
    alloc: Global,
    s: &mut W,
    id: &Id,
    content: &Content,
) -> Result<(), StepErr>
    requires ready { IsAtWork (W.now s.old) }

    ensures ends { FetchesOfOr id.now content.now (W.now s.old) result (W.now s.new) }
{
    if !is_resource(content) {
        return Ok(());
    }
    s.fetch(alloc, id)
}

ghost use Rattle.std.specs.Prelude.{◌≡◌, IfOk, OnErr};
ghost use Rattle.law_licences.specs.Items.{remote_in};
ghost use Rattle.law_licences.specs.Sealing.{no_keys};
ghost use Rattle.session.specs.Findings.{GivesOthers, IsSoundFinding, Judges, absent_of, is_base, other_of};

use conflicts::content_in;
use jop_base::{Bytes, Copied, Id};
use jop_target::Reply;
use local_store::Content;
use std::alloc::{AllocError, Global};

/// How a file that was got stands to its row.
#[derive(Debug, Drop)]
pub enum Finding {
    /// It is as the client left it, or was never there.
    Same,
    /// It is another one, an item of the row's id.
    Other((Bytes, Content)),
    /// It is gone.
    Missing,
    /// It is another one, and can't be read.
    Unreadable,
}

fn is_base(base: &Option<Bytes>, content: &Bytes) -> bool
    ensures { result ≡ is_base base.now content.now }
{
    match base {
        Some(bytes) => bytes.as_slice() == content.as_slice(),
        None => false,
    }
}

/// What another file is.
fn other_of(alloc: Global, id: &Id, content: &Bytes) -> Result<Finding, AllocError>
    ensures found { IfOk result (λ finding.
        finding ≡ other_of (remote_in no_keys id.now content.now)) }
    ensures sound { IfOk result (IsSoundFinding id.now) }
{
    match content_in(alloc, id, content.as_slice())? {
        Some(found) => Ok(Finding::Other((content.copy(alloc)?, found))),
        None => Ok(Finding::Unreadable),
    }
}

fn absent_of(base: &Option<Bytes>) -> Finding
    ensures { result ≡ absent_of base.now }
{
    match base {
        Some(_) => Finding::Missing,
        None => Finding::Same,
    }
}

/// How the file of this id stands to a row with this base, by the reply to a get of it.
pub(crate) fn find(
    alloc: Global,
    id: &Id,
    base: &Option<Bytes>,
    reply: &Reply,
) -> Result<Finding, AllocError>
    ensures judges { IfOk result (Judges id.now base.now reply.now) }

    // Nothing else takes memory.
    ensures memory { OnErr result (GivesOthers base.now reply.now) }
{
    match reply {
        Reply::Got { now: _, content } if is_base(base, content) => Ok(Finding::Same),
        Reply::Got { now: _, content } => other_of(alloc, id, content),
        Reply::Absent { now: _ } => Ok(absent_of(base)),
        _ => Ok(Finding::Unreadable),
    }
}

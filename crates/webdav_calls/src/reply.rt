ghost use Rattle.std.specs.Prelude.{IfOk};
ghost use Rattle.webdav_calls.specs.Replies.{IsListingReply, IsOutcomeReply, IsResponseReply};

use crate::outcome::{Outcome, call_outcome};
use dav_listing::read_listing;
use http_exchange::Told;
use jop_base::{Bytes, Copied, Dir};
use jop_target::{Call, Listing, Reply};
use std::alloc::{AllocError, Global};

fn listing_reply(
    alloc: Global,
    dir: Dir,
    folder: &Bytes,
    body: &Bytes,
    now: u64,
) -> Result<Reply, AllocError>
    ensures { IfOk result (IsListingReply dir folder.now body.now now) }
{
    match read_listing(alloc, dir, folder.copy(alloc)?, body.as_slice())? {
        Some(entries) => Ok(Reply::Listed(Listing { now, entries })),
        None => Ok(Reply::Failed),
    }
}

fn outcome_reply(
    alloc: Global,
    outcome: Outcome,
    folder: &Bytes,
    body: &Bytes,
    now: u64,
) -> Result<Reply, AllocError>
    ensures { IfOk result (IsOutcomeReply outcome folder.now body.now now) }
{
    match outcome {
        Outcome::Listing(dir) => {
            let reply = listing_reply(alloc, dir, folder, body, now)?;
            Ok(reply)
        }
        Outcome::Content => {
            let content = body.copy(alloc)?;
            Ok(Reply::Got { now, content })
        }
        Outcome::Blob => Ok(Reply::GotBlob {
            now,
            len: body.len() as u64,
        }),
        Outcome::TooLong(len) => Ok(Reply::TooLarge { len }),
        Outcome::Absent => Ok(Reply::Absent { now }),
        Outcome::Done => Ok(Reply::Done { now }),
        Outcome::Failed => Ok(Reply::Failed),
    }
}

/// The reply to a call that a response with this head and this body is. `folder` is the path on the server of the
/// folder that a listing is of, with its escapes read and a slash at its end.
pub fn reply_of(
    alloc: Global,
    call: &Call,
    told: Told,
    folder: &Bytes,
    body: &Bytes,
) -> Result<Reply, AllocError>
    ensures { IfOk result (IsResponseReply call.now told folder.now body.now) }
{
    match told.moment {
        None => Ok(Reply::Failed),
        Some(moment) => {
            let now = moment.saturating_sub(1_000);
            let reply = outcome_reply(alloc, call_outcome(call, told), folder, body, now)?;
            Ok(reply)
        }
    }
}

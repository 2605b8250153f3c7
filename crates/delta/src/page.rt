ghost use Rattle.std.specs.Prelude.{◌≡◌, IfOk, filter};
ghost use Rattle.std.specs.Option.{option_copied};
ghost use Rattle.delta.specs.Order.{Lists, id_cmp};
ghost use Rattle.delta.specs.Page.{IsGoneOf, IsNext, IsPageOf, IsSeenAt, IsTaken};
ghost use Rattle.delta.specs.Sets.{is_deleted, is_gone, is_out};

use crate::mark::{Mark, at, ids_of, latest, marks_of, past};
use crate::order::{in_order, set_of};
use crate::tomb::record_of;
use jop_base::{Context, Id, Seq};
use jop_target::Listing;
use std::alloc::{AllocError, Global};
use std::collections::BTreeSet;

/// What a listing asks of a client: the items to be read, in the order in which they were written; those that are gone,
/// by their ids; and how far the client has read the target when it has read them.
#[derive(Debug, Drop)]
pub struct Page {
    pub taken: Seq<Id>,
    pub gone: Seq<Id>,
    pub next: Context,
}

/// The page of a listing of the root, and of one of the folder of deletions where they are recorded,
/// for a client that has read the target so far, and has a base of these items. Its only refusal is
/// want of memory.
pub fn delta_of(
    alloc: Global,
    listing: &Listing,
    tombs: Option<&Listing>,
    context: &Context,
    synced: &Seq<Id>,
) -> Result<Page, AllocError>
    ensures { IfOk result
        (IsPageOf listing.entry.now (option_copied tombs.entry) context.now synced.now) }
{
    let marks = marks_of(alloc, listing)?;
    Ok(Page {
        taken: taken_of(alloc, context, &marks)?,
        gone: gone_of(alloc, synced.as_slice(), &marks, tombs)?,
        next: next_of(alloc, listing.now, context, &marks)?,
    })
}

/// The ids of the new files, in the order in which they were written.
fn taken_of(alloc: Global, context: &Context, marks: &[Mark]) -> Result<Seq<Id>, AllocError>
    ensures { IfOk result (IsTaken context.now marks.now) }
{
    let seen = set_of(alloc, context.seen.as_slice())?;
    let new = in_order(alloc, &past(alloc, context.moment, &seen, marks)?)?;
    Ok(Seq::from_vec(ids_of(alloc, &new)?))
}

/// The ids that none of the files has, and that count as deleted.
fn gone_of(
    alloc: Global,
    synced: &[Id],
    marks: &[Mark],
    tombs: Option<&Listing>,
) -> Result<Seq<Id>, AllocError>
    ensures { IfOk result
        (Lists id_cmp (IsGoneOf synced.now marks.now (option_copied tombs.entry))) }
{
    let shown = set_of(alloc, &ids_of(alloc, marks)?)?;
    let recorded = record_of(alloc, tombs)?;
    let gone = gone_among(alloc, synced, &shown, &recorded)?;
    Ok(Seq::from_vec(in_order(alloc, &gone)?))
}

fn is_out(set: &BTreeSet<Id>, id: &Id) -> bool
    ensures { result ≡ is_out set.now id.now }
{
    !set.contains(id)
}

/// Whether an id counts as deleted: where deletions are recorded only if it is.
fn is_deleted(recorded: &Option<BTreeSet<Id>>, id: &Id) -> bool
    ensures { result ≡ is_deleted recorded.now id.now }
{
    match recorded {
        None => true,
        Some(recorded) => recorded.contains(id),
    }
}

fn is_gone(shown: &BTreeSet<Id>, recorded: &Option<BTreeSet<Id>>, id: &Id) -> bool
    ensures { result ≡ is_gone shown.now recorded.now id.now }
{
    is_out(shown, id) && is_deleted(recorded, id)
}

/// Those of the ids that aren't shown, and count as deleted.
fn gone_among(
    alloc: Global,
    synced: &[Id],
    shown: &BTreeSet<Id>,
    recorded: &Option<BTreeSet<Id>>,
) -> Result<Vec<Id>, AllocError>
    ensures { IfOk result
        (λ gone. gone.items ≡ filter (is_gone shown.now recorded.now) synced.now) }
{
    let mut gone = Vec::new(alloc);
    for id in synced {
        if is_gone(shown, recorded, id) {
            gone.push(*id)?;
        }
    }
    Ok(gone)
}

/// How far a client has read the target that has read what a listing of this moment shows.
fn next_of(alloc: Global, now: u64, before: &Context, marks: &[Mark]) -> Result<Context, AllocError>
    ensures { IfOk result (IsNext now before.now marks.now) }
{
    let moment = latest(before.moment, marks);
    let seen = seen_at(alloc, now, moment, marks)?;
    Ok(Context { moment, seen })
}

/// The ids of the files that were written at this moment, where the listing is later.
fn seen_at(alloc: Global, now: u64, moment: u64, marks: &[Mark]) -> Result<Seq<Id>, AllocError>
    ensures { IfOk result (Lists id_cmp (IsSeenAt now moment marks.now)) }
{
    if moment >= now {
        return Ok(Seq::new(alloc));
    }
    let ids = ids_of(alloc, &at(alloc, moment, marks)?)?;
    Ok(Seq::from_vec(in_order(alloc, &ids)?))
}

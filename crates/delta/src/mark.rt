ghost use Rattle.std.specs.Prelude.{◌≡◌, IfOk, filter};
ghost use Rattle.delta.specs.Marks.{ids_of, is_at, latest, marks_of};
ghost use Rattle.delta.specs.Sets.{is_past};

use jop_base::{Id, Path};
use jop_target::Listing;
use std::alloc::{AllocError, Global};
use std::collections::BTreeSet;

/// An item's file, and when it was written, in milliseconds since 1970. Their order is that of the moments, then that
/// of the ids.
#[derive(Clone, Copy, Debug, PartialEq, Eq, PartialOrd, Ord)]
pub struct Mark {
    pub stamp: u64,
    pub id: Id,
}

/// The items that a listing shows.
#[tactic(auto, unfolding(crate::specs::Marks::marks_of))]
pub(crate) fn marks_of(alloc: Global, listing: &Listing) -> Result<Vec<Mark>, AllocError>
    ensures { IfOk result (λ marks. marks.items ≡ marks_of listing.entry.now.entries) }
{
    let mut marks = Vec::new(alloc);
    for entry in listing.entries.as_slice() {
        if let Path::Item(id) = entry.path {
            marks.push(Mark {
                stamp: entry.stamp,
                id,
            })?;
        }
    }
    Ok(marks)
}

/// The last moment at which one of the files was written, or the moment given, where that is later.
#[tactic(auto, unfolding(crate::specs::Marks::latest))]
pub(crate) fn latest(moment: u64, marks: &[Mark]) -> u64
    ensures { result ≡ latest moment marks.now }
{
    let mut latest = moment;
    for mark in marks {
        latest = latest.max(mark.stamp);
    }
    latest
}

/// Whether a file was written past a moment, or at it and is none of those that were seen then.
fn is_past(moment: u64, seen: &BTreeSet<Id>, mark: &Mark) -> bool
    ensures { result ≡ is_past moment seen.now mark.now }
{
    moment < mark.stamp || (moment == mark.stamp && !seen.contains(&mark.id))
}

/// Those that were written past a moment, or at it and are none of those that were seen then.
pub(crate) fn past(
    alloc: Global,
    moment: u64,
    seen: &BTreeSet<Id>,
    marks: &[Mark],
) -> Result<Vec<Mark>, AllocError>
    ensures { IfOk result (λ new. new.items ≡ filter (is_past moment seen.now) marks.now) }
{
    let mut new = Vec::new(alloc);
    for mark in marks {
        if is_past(moment, seen, mark) {
            new.push(*mark)?;
        }
    }
    Ok(new)
}

/// Those that were written at a moment.
pub(crate) fn at(alloc: Global, moment: u64, marks: &[Mark]) -> Result<Vec<Mark>, AllocError>
    ensures { IfOk result (λ at. at.items ≡ filter (is_at moment) marks.now) }
{
    let mut at = Vec::new(alloc);
    for mark in marks {
        if mark.stamp == moment {
            at.push(*mark)?;
        }
    }
    Ok(at)
}

/// Their ids, in their order.
pub(crate) fn ids_of(alloc: Global, marks: &[Mark]) -> Result<Vec<Id>, AllocError>
    ensures { IfOk result (λ ids. ids.items ≡ ids_of marks.now) }
{
    let mut ids = Vec::new(alloc);
    for mark in marks {
        ids.push(mark.id)?;
    }
    Ok(ids)
}

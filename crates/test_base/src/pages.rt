use delta::{Page, delta_of, fail_safe};
use jop_base::{Context, Id, Path, Seq};
use jop_target::{Entry, Listing};
use std::alloc::{AllocError, Global};
use std::test::Fail;

const A: &[u8] = b"aaaaaaaaaaaaaaaaaaaaaaaaaaaaaaaa";

const B: &[u8] = b"bbbbbbbbbbbbbbbbbbbbbbbbbbbbbbbb";

const C: &[u8] = b"cccccccccccccccccccccccccccccccc";

fn read_id(text: &[u8]) -> Option<Id> {
    Id::read(text)
}

fn id(text: &[u8]) -> Result<Id, Fail> {
    Ok(read_id(text).ok_or("an id")?)
}

/// The ids of the two items that a listing shows.
fn shown() -> Result<[Id; 2], Fail> {
    Ok([id(A)?, id(B)?])
}

/// Two items, beside a file that is none.
fn listing(alloc: Global, now: u64, ids: [Id; 2], stamps: [u64; 2]) -> Result<Listing, AllocError> {
    let mut entries = Seq::new(alloc);
    for (path, stamp) in [
        (Path::Item(ids[0]), stamps[0]),
        (Path::Item(ids[1]), stamps[1]),
        (Path::Info, 9),
    ] {
        entries.push(Entry { path, stamp })?;
    }
    Ok(Listing { now, entries })
}

/// The page of such a listing for a client that has read so far, and has no base.
fn page_after(
    alloc: Global,
    now: u64,
    ids: [Id; 2],
    stamps: [u64; 2],
    context: &Context,
) -> Result<Page, AllocError> {
    let listing = listing(alloc, now, ids, stamps)?;
    delta_of(alloc, &listing, None, context, &Seq::new(alloc))
}

fn takes(page: &Page, ids: &[Id]) -> bool {
    page.taken.as_slice() == ids
}

fn is_read(context: &Context, moment: u64, seen: &[Id]) -> bool {
    context.moment == moment && context.seen.as_slice() == seen
}

/// Whether the listing asks for nothing once the client has read so far.
fn asks_for_nothing(alloc: Global, ids: [Id; 2], context: &Context) -> Result<bool, AllocError> {
    let page = page_after(alloc, 9, ids, [5, 7], context)?;
    Ok(page.taken.is_empty() && page.next == *context)
}

/// Whether a later listing asks for the second item again, and then for nothing.
fn asks_once_more(alloc: Global, ids: [Id; 2], context: &Context) -> Result<bool, AllocError> {
    let page = page_after(alloc, 9, ids, [5, 7], context)?;
    let second = [ids[1]];
    let asks = takes(&page, &second) && page.next.seen.as_slice() == second.as_slice();
    Ok(asks && asks_for_nothing(alloc, ids, &page.next)?)
}

fn first_page(alloc: Global, now: u64, ids: [Id; 2], stamps: [u64; 2]) -> Result<Page, AllocError> {
    page_after(alloc, now, ids, stamps, &Context::new(alloc))
}

#[test]
fn an_item_of_the_listings_moment_is_read_again(rt: HostRuntime) -> Result<(), Fail> {
    let ids = shown()?;
    let first = first_page(rt.alloc(), 7, ids, [5, 7])?;
    assert!(rt; takes(&first, &ids) && is_read(&first.next, 7, &[]));
    assert!(rt; asks_once_more(rt.alloc(), ids, &first.next)?);
    Ok(())
}

fn takes_in_order(
    alloc: Global,
    ids: [Id; 2],
    stamps: [u64; 2],
    order: [Id; 2],
) -> Result<bool, AllocError> {
    let page = first_page(alloc, 9, ids, stamps)?;
    Ok(takes(&page, &order))
}

#[test]
fn items_are_taken_as_they_were_written(rt: HostRuntime) -> Result<(), Fail> {
    let [a, b] = shown()?;
    for (stamps, order) in [([5, 4], [b, a]), ([4, 4], [a, b]), ([4, 5], [a, b])] {
        assert!(rt; takes_in_order(rt.alloc(), [a, b], stamps, order)?);
    }
    Ok(())
}

/// A base of two items, of which the listing shows the second.
fn base(alloc: Global, ids: [Id; 2]) -> Result<Seq<Id>, AllocError> {
    let mut synced = Seq::new(alloc);
    synced.push(ids[0])?;
    synced.push(ids[1])?;
    Ok(synced)
}

fn gone_is(
    alloc: Global,
    shown: &Listing,
    tombs: Option<&Listing>,
    synced: &Seq<Id>,
    gone: &[Id],
) -> Result<bool, AllocError> {
    let page = delta_of(alloc, shown, tombs, &Context::new(alloc), synced)?;
    Ok(page.gone.as_slice() == gone)
}

#[test]
fn what_is_shown_no_more_is_gone(rt: HostRuntime) -> Result<(), Fail> {
    let alloc = rt.alloc();
    let (ids, gone) = (shown()?, id(C)?);
    let synced = base(alloc, [gone, ids[1]])?;
    let shown = listing(alloc, 9, ids, [5, 5])?;
    assert!(rt; gone_is(alloc, &shown, None, &synced, &[gone])?);
    assert!(rt; fail_safe(&shown, None, &synced).is_none());
    Ok(())
}

/// A listing of the folder of deletions that records these.
fn records(alloc: Global, ids: &[Id]) -> Result<Listing, AllocError> {
    let mut entries = Seq::new(alloc);
    for id in ids {
        entries.push(Entry {
            path: Path::Tomb(*id),
            stamp: 3,
        })?;
    }
    Ok(Listing { now: 9, entries })
}

/// Whether just these items are gone where one deletion is recorded.
fn gone_by(
    alloc: Global,
    shown: &Listing,
    recorded: Id,
    synced: &Seq<Id>,
    gone: &[Id],
) -> Result<bool, AllocError> {
    let tombs = records(alloc, &[recorded])?;
    gone_is(alloc, shown, Some(&tombs), synced, gone)
}

#[test]
fn only_what_is_recorded_is_gone(rt: HostRuntime) -> Result<(), Fail> {
    let alloc = rt.alloc();
    let (ids, absent) = (shown()?, id(C)?);
    let synced = base(alloc, [absent, ids[1]])?;
    let shown = listing(alloc, 9, ids, [5, 5])?;
    let one = [absent];
    for (recorded, gone) in [(absent, one.as_slice()), (ids[1], &[]), (ids[0], &[])] {
        assert!(rt; gone_by(alloc, &shown, recorded, &synced, gone)?);
    }
    Ok(())
}

/// How many items a client would lose by a listing that shows nothing.
fn lost(alloc: Global, tombs: Option<&Listing>, synced: &Seq<Id>) -> Option<u64> {
    let empty = Listing {
        now: 9,
        entries: Seq::new(alloc),
    };
    fail_safe(&empty, tombs, synced)
}

#[test]
fn a_listing_without_items_is_stopped(rt: HostRuntime) -> Result<(), Fail> {
    let synced = base(rt.alloc(), [id(C)?, id(B)?])?;
    assert!(rt; lost(rt.alloc(), None, &synced) == Some(2));
    assert!(rt; lost(rt.alloc(), None, &Seq::new(rt.alloc())).is_none());
    Ok(())
}

/// The same, where these deletions are recorded.
fn lost_beside(
    alloc: Global,
    recorded: &[Id],
    synced: &Seq<Id>,
) -> Result<Option<u64>, AllocError> {
    let tombs = records(alloc, recorded)?;
    Ok(lost(alloc, Some(&tombs), synced))
}

#[test]
fn a_target_that_records_a_deletion_was_not_emptied(rt: HostRuntime) -> Result<(), Fail> {
    let gone = id(C)?;
    let synced = base(rt.alloc(), [gone, id(B)?])?;
    assert!(rt; lost_beside(rt.alloc(), &[], &synced)? == Some(2));
    assert!(rt; lost_beside(rt.alloc(), &[gone], &synced)?.is_none());
    Ok(())
}

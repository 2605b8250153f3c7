use crate::texts::{R, RESOURCE};
use std::alloc::Global;
use std::test::Fail;
use test_client::{BrokenOff, Part, Place, Step, holds, size_of};

/// A client that has a new resource with five bytes, and an empty target.
fn make_place(alloc: Global) -> Result<Place, BrokenOff> {
    let mut place = Place::new(alloc, &[Step::Save(R, RESOURCE)], &[])?;
    place.client.attach(alloc, R, "hello")?;
    Ok(place)
}

/// Whether an upload ends so.
fn ends(alloc: Global, place: &mut Place, well: bool) -> bool {
    place.counts(alloc, Part::Upload).is_ok() == well
}

/// Whether the target has so many bytes of the resource, and this item.
fn has(place: &Place, size: Option<u64>, text: Option<&'static str>) -> Result<bool, BrokenOff> {
    let tree = place.target.tree();
    Ok(size_of(tree, R)? == size && holds(tree, R, text)?)
}

/// Whether an upload that fails at the item puts the bytes alone, and the next one the item. The
/// sixth call puts the bytes, and the seventh the item.
fn puts_bytes_first(alloc: Global, place: &mut Place) -> Result<bool, BrokenOff> {
    place.target.fail(7, false)?;
    let bytes_alone = ends(alloc, place, false) && has(place, Some(5), None)?;
    Ok(bytes_alone && ends(alloc, place, true) && has(place, Some(5), Some(RESOURCE))?)
}

/// Whether an upload that fails at the bytes puts nothing.
fn stops_at_bytes(alloc: Global, place: &mut Place) -> Result<bool, BrokenOff> {
    place.target.fail(6, false)?;
    Ok(ends(alloc, place, false) && has(place, None, None)?)
}

fn bytes_come_first(alloc: Global) -> Result<bool, BrokenOff> {
    let mut place = make_place(alloc)?;
    puts_bytes_first(alloc, &mut place)
}

fn bytes_are_needed(alloc: Global) -> Result<bool, BrokenOff> {
    let mut place = make_place(alloc)?;
    stops_at_bytes(alloc, &mut place)
}

#[test]
fn bytes_are_put_before_their_resource(rt: HostRuntime) -> Result<(), Fail> {
    assert!(rt; bytes_come_first(rt.alloc())?);
    Ok(())
}

#[test]
fn a_resource_is_not_put_without_its_bytes(rt: HostRuntime) -> Result<(), Fail> {
    assert!(rt; bytes_are_needed(rt.alloc())?);
    Ok(())
}

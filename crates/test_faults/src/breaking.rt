use crate::fault::{Fault, FaultKind};
use crate::place::Place;
use crate::scene::Scene;
use crate::scenes::{
    ALL_KINDS, EDIT, LOST_INFO, NEW_CLIENT, NEW_TARGET, OLD_TARGET, SEALED, WANTS_KEY,
};
use crate::served::tree;
use crate::standing::standing;
use jop_base::Bytes;
use std::alloc::Global;
use std::test::Fail;

/// How a command ends, how it ends once more, and what stands then.
struct Outcome {
    first: u8,
    last: u8,
    standing: Bytes,
}

// Written out, as that of a client is.
impl Drop for Outcome {
    fn drop(self) {
        let Outcome {
            first: _,
            last: _,
            standing: _,
        } = self;
    }
}

fn what_stands(alloc: Global, first: u8, last: u8, place: &Place) -> Result<Outcome, Fail> {
    let standing = standing(alloc, place.client.keeper.tables(), tree(&place.target))?;
    Ok(Outcome {
        first,
        last,
        standing,
    })
}

/// What one run comes to in which nothing fails.
fn undisturbed(alloc: Global, scene: &Scene) -> Result<Outcome, Fail> {
    let mut place = Place::of(alloc, scene)?;
    undisturbed_at(alloc, scene, &mut place)
}

fn undisturbed_at(alloc: Global, scene: &Scene, place: &mut Place) -> Result<Outcome, Fail> {
    let exit = place.play(alloc, scene.command)?;
    what_stands(alloc, exit, exit, place)
}

/// What a run comes to in which that fails, and another behind it if it broke off.
fn disturbed(alloc: Global, scene: &Scene, fault: Fault) -> Result<Outcome, Fail> {
    let mut place = Place::of(alloc, scene)?;
    disturbed_at(alloc, scene, fault, &mut place)
}

fn disturbed_at(
    alloc: Global,
    scene: &Scene,
    fault: Fault,
    place: &mut Place,
) -> Result<Outcome, Fail> {
    let first = place.play_with(alloc, scene, fault)?;
    if first == scene.exit {
        return what_stands(alloc, first, first, place);
    }
    let last = place.play(alloc, scene.command)?;
    what_stands(alloc, first, last, place)
}

/// Whether the fault breaks the command off. What stands behind the second run has to be what one
/// undisturbed run leaves.
fn breaks(alloc: Global, scene: &Scene, fault: Fault, wanted: &Outcome) -> Result<bool, Fail> {
    let came = disturbed(alloc, scene, fault)?;
    if came.last != wanted.last || came.standing != wanted.standing {
        return Err(Fail::new(scene.name));
    }
    Ok(came.first != wanted.first)
}

/// How many faults of a kind break the command off, of one more than are to do so.
fn count_breaking(
    alloc: Global,
    scene: &Scene,
    kind: FaultKind,
    wanted: &Outcome,
) -> Result<u64, Fail> {
    let mut count = 0u64;
    for nth in 1..=scene.breaking.of(kind).saturating_add(1) {
        let fault = Fault { kind, nth };
        if breaks(alloc, scene, fault, wanted)? {
            count = count.saturating_add(1);
        }
    }
    Ok(count)
}

/// Whether as many faults of each kind break the command off as the scene says.
fn breaks_as_told(alloc: Global, scene: &Scene, wanted: &Outcome) -> Result<bool, Fail> {
    for kind in FaultKind::ALL {
        if count_breaking(alloc, scene, kind, wanted)? != scene.breaking.of(kind) {
            return Ok(false);
        }
    }
    Ok(true)
}

/// Whether the command ends as the scene says where nothing fails, and comes to the same behind
/// each fault.
fn comes_out(alloc: Global, scene: &Scene) -> Result<bool, Fail> {
    let wanted = undisturbed(alloc, scene)?;
    if wanted.first != scene.exit {
        return Err(Fail::new(scene.name));
    }
    breaks_as_told(alloc, scene, &wanted)
}

#[test]
fn a_sync_of_a_new_client_is_made_again(rt: HostRuntime) -> Result<(), Fail> {
    assert!(rt; comes_out(rt.alloc(), &NEW_CLIENT)?);
    Ok(())
}

#[test]
fn a_sync_of_an_edit_is_made_again(rt: HostRuntime) -> Result<(), Fail> {
    assert!(rt; comes_out(rt.alloc(), &EDIT)?);
    Ok(())
}

#[test]
fn a_sync_of_all_kinds_of_work_is_made_again(rt: HostRuntime) -> Result<(), Fail> {
    assert!(rt; comes_out(rt.alloc(), &ALL_KINDS)?);
    Ok(())
}

#[test]
fn a_sync_of_a_sealed_target_is_made_again(rt: HostRuntime) -> Result<(), Fail> {
    assert!(rt; comes_out(rt.alloc(), &SEALED)?);
    Ok(())
}

#[test]
fn a_sync_that_wants_a_key_is_made_again(rt: HostRuntime) -> Result<(), Fail> {
    assert!(rt; comes_out(rt.alloc(), &WANTS_KEY)?);
    Ok(())
}

#[test]
fn a_sync_that_mends_the_info_is_made_again(rt: HostRuntime) -> Result<(), Fail> {
    assert!(rt; comes_out(rt.alloc(), &LOST_INFO)?);
    Ok(())
}

#[test]
fn an_upgrade_of_a_new_target_is_made_again(rt: HostRuntime) -> Result<(), Fail> {
    assert!(rt; comes_out(rt.alloc(), &NEW_TARGET)?);
    Ok(())
}

#[test]
fn an_upgrade_of_an_old_target_is_made_again(rt: HostRuntime) -> Result<(), Fail> {
    assert!(rt; comes_out(rt.alloc(), &OLD_TARGET)?);
    Ok(())
}

use crate::named::NOW;
use crate::steps::{Step, change};
use jop_base::let_go;
use keeper::Keeper;
use keeper_records::MemKeeper;
use local_changes::StoreErr;
use local_store::Tables;
use std::alloc::Global;
use std::test::Fail;

/// How many rows, rows that wait to be uploaded, deletions and conflict notes there are.
fn counts(tables: &Tables) -> [usize; 4] {
    let rows = tables.rows.as_slice();
    [
        rows.len(),
        rows.iter().filter(|row| row.pending).count(),
        tables.deletions.len(),
        tables.conflicts.len(),
    ]
}

/// Takes a step. Whether the keeper made its change.
fn is_made(alloc: Global, keeper: &mut MemKeeper, step: Step) -> Result<bool, StoreErr> {
    let change = change(alloc, keeper.tables(), step, NOW)?;
    let came = keeper.commit(alloc, &change);
    let_go(change);
    Ok(came == Ok(()))
}

/// What is done with a notebook and a note, and how many rows, pending rows, deletions and conflict
/// notes there are then.
const WAY: [(Step, [usize; 4]); 6] = [
    (Step::MakeBook, [1, 1, 0, 0]),
    (Step::MakeNote, [2, 2, 0, 0]),
    (Step::Upload, [2, 1, 0, 0]),
    (Step::Edit, [2, 2, 0, 0]),
    (Step::Remove, [1, 1, 1, 0]),
    (Step::Drop, [1, 1, 0, 0]),
];

fn goes_its_way(alloc: Global, keeper: &mut MemKeeper) -> Result<bool, StoreErr> {
    for (step, left) in WAY {
        if !is_made(alloc, keeper, step)? || counts(keeper.tables()) != left {
            return Ok(false);
        }
    }
    Ok(true)
}

#[test]
fn a_note_goes_its_way(rt: HostRuntime) -> Result<(), Fail> {
    let alloc = rt.alloc();
    let mut keeper = MemKeeper::new(alloc);
    assert!(rt; goes_its_way(alloc, &mut keeper) == Ok(true));
    Ok(())
}

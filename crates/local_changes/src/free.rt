ghost use Rattle.std.specs.Prelude.{◌≡◌};
ghost use Rattle.local_changes.specs.Free.{IsFirstFree, is_taken};

use jop_base::Id;
use local_store::Tables;

/// Whether a row or a deletion has this id.
fn is_taken(tables: &Tables, id: &Id) -> bool
    ensures { result ≡ is_taken tables.now id.now }
{
    tables.rows.at(id).is_some() || tables.deletions.at(id).is_some()
}

/// The first of an id and the ids that follow it that is no row's and no deletion's.
pub fn free_id(tables: &Tables, drawn: Id) -> Id
    ensures { IsFirstFree tables.now drawn result }
{
    drawn.prove_valid();
    let held = tables.rows.len() as u128 + tables.deletions.len() as u128;
    let mut id = drawn;
    for _steps in 0..held {
        if !is_taken(tables, &id) {
            return id;
        }
        id = id.after();
    }
    id
}

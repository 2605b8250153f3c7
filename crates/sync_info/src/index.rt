ghost use Rattle.std.specs.Prelude.{◌≡◌, IfOk};
ghost use Rattle.std.specs.List.{find, list_any};
ghost use Rattle.std.specs.Option.{option_copied};
ghost use Rattle.sync_info.specs.Info.{has_id};
ghost use Rattle.sync_info.specs.Merge.{IsIndex};

use crate::key_record::KeyRecord;
use jop_base::Id;
use std::alloc::{AllocError, Global};
use std::collections::BTreeMap;

/// The place of the first record of each id.
pub(crate) fn index_of(alloc: Global, keys: &[KeyRecord]) -> Result<BTreeMap<Id, usize>, AllocError>
    ensures { IfOk result (IsIndex keys.now) }
{
    let mut index = BTreeMap::new(alloc);
    for i in (0..keys.len()).rev() {
        index.insert(keys[i].id, i)?;
    }
    Ok(index)
}

/// The first record of the id.
pub(crate) fn record_of<'a>(
    keys: &'a [KeyRecord],
    index: &BTreeMap<Id, usize>,
    id: &Id,
) -> Option<&'a KeyRecord>
    requires { IsIndex keys.now index.now }
    ensures { option_copied result ≡ find (has_id id.now) keys.now }
{
    let place = index.get(id)?;
    keys.get(*place)
}

/// Whether a record has the id.
pub(crate) fn has_record(keys: &[KeyRecord], index: &BTreeMap<Id, usize>, id: &Id) -> bool
    requires { IsIndex keys.now index.now }
    ensures { result ≡ list_any (has_id id.now) keys.now }
{
    record_of(keys, index, id).is_some()
}

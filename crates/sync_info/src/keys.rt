ghost use Rattle.std.specs.Prelude.{◌≡◌, false, IfOk};
ghost use Rattle.serde_json.specs.View.{view, items_view};
ghost use Rattle.serde_json.specs.Written.{has_float, items_have_float};
ghost use Rattle.sync_info.specs.Info.{are_distinct};
ghost use Rattle.sync_info.specs.Read.{updated_in, record_of, records_of, keys_of, keys_in};

use crate::holder::Holder;
use crate::kept::kept_in;
use crate::key_record::KeyRecord;
use crate::parts::{id_of, time_of};
use jop_base::{Seq, Text};
use serde_json::Value;
use std::alloc::{AllocError, Global};
use std::collections::BTreeSet;

/// 0 if it is absent.
fn updated_in(value: &Value) -> Option<u64>
    ensures { result ≡ updated_in (view value.now) }
{
    match value.get("updated_time") {
        Some(time) => time_of(time),
        None => Some(0),
    }
}

fn record_of(alloc: Global, value: &Value) -> Result<Option<KeyRecord>, AllocError>
    requires { has_float (view value.now) ≡ false }
    ensures { IfOk result (λ found. found ≡ record_of (view value.now)) }
{
    let Some(id) = value.get("id").and_then(id_of) else {
        return Ok(None);
    };
    let Some(content) = value.get("content").and_then(Value::as_str) else {
        return Ok(None);
    };
    let Some(updated) = updated_in(value) else {
        return Ok(None);
    };
    Ok(Some(KeyRecord {
        id,
        content: Text::of(alloc, content)?,
        updated,
        others: kept_in(alloc, value, Holder::KeyRecord)?,
    }))
}

/// None if an item is no record.
fn records_of(alloc: Global, items: &[Value]) -> Result<Option<Seq<KeyRecord>>, AllocError>
    requires { items_have_float (items_view items.now) ≡ false }
    ensures { IfOk result (λ found. found ≡ records_of (items_view items.now)) }
{
    let mut keys = Seq::new(alloc);
    for item in items {
        let Some(key) = record_of(alloc, item)? else {
            return Ok(None);
        };
        keys.push(key)?;
    }
    Ok(Some(keys))
}

fn are_distinct(alloc: Global, keys: &[KeyRecord]) -> Result<bool, AllocError>
    ensures { IfOk result (λ distinct. distinct ≡ are_distinct keys.now) }
{
    let mut seen = BTreeSet::new(alloc);
    for i in (0..keys.len()).rev() {
        if !seen.insert(keys[i].id.digits())? {
            return Ok(false);
        }
    }
    Ok(true)
}

fn keys_of(alloc: Global, value: &Value) -> Result<Option<Seq<KeyRecord>>, AllocError>
    requires { has_float (view value.now) ≡ false }
    ensures { IfOk result (λ found. found ≡ keys_of (view value.now)) }
{
    let Some(items) = value.as_array() else {
        return Ok(None);
    };
    let Some(keys) = records_of(alloc, items.as_slice())? else {
        return Ok(None);
    };
    if are_distinct(alloc, keys.as_slice())? {
        Ok(Some(keys))
    } else {
        Ok(None)
    }
}

/// Where the list is absent there are no keys.
pub(crate) fn keys_in(alloc: Global, value: &Value) -> Result<Option<Seq<KeyRecord>>, AllocError>
    requires { has_float (view value.now) ≡ false }
    ensures { IfOk result (λ found. found ≡ keys_in (view value.now)) }
{
    match value.get("masterKeys") {
        Some(keys) => keys_of(alloc, keys),
        None => Ok(Some(Seq::new(alloc))),
    }
}

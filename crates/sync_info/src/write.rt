ghost use Rattle.std.specs.Prelude.{◌≡◌, Bool, Some, IsSome, IfOk, map};
ghost use Rattle.std.specs.Cmp.Lexicographic.{slice_cmp};
ghost use Rattle.std.specs.List.{AllByRecursion};
ghost use Rattle.std.specs.List.Sorted.{IsStrictlySortedBy};
ghost use Rattle.std.specs.Ordering.{nat_cmp};
ghost use Rattle.serde_json.specs.Data.{array, boolean, string};
ghost use Rattle.serde_json.specs.Read.{read};
ghost use Rattle.serde_json.specs.View.{view, items_view, members_view};
ghost use Rattle.sync_info.specs.Info.{IsInfo, IsKeyRecord};
ghost use Rattle.sync_info.specs.Json.{value_in, members_of, put_all, setting_json, record_members, record_json, records_json, info_members, info_json, info_text};
ghost use Rattle.sync_info.specs.Read.{info_in};
ghost use Rattle.sync_info.specs.Version.{version_of};

use crate::info::Info;
use crate::key_record::KeyRecord;
use crate::member::Member;
use crate::timed::Timed;
use jop_base::{Bytes, Text};
use serde_json::{Map, Value, json, put};
use std::alloc::{AllocError, Global};

/// The value of a kept text.
fn value_in(alloc: Global, json: &Text) -> Result<Value, AllocError>
    requires { IsSome (read json.now) }
    ensures { IfOk result (λ value. view value ≡ value_in json.now) }
{
    match Value::from_str(alloc, json.as_str()) {
        Ok(value) => Ok(value),
        Err(e) if e.is_memory() => Err(AllocError),
        Err(_) => unreachable!(),
    }
}

/// Kept members, as those of an object.
fn members_of(alloc: Global, kept: &[Member]) -> Result<Map<String, Value>, AllocError>
    requires reads { AllByRecursion (λ m. IsSome (read m.json)) kept.now }
    requires sorted { IsStrictlySortedBy (slice_cmp nat_cmp) (map (λ m. m.name) kept.now) }
    ensures { IfOk result (λ members. members_view members.entries ≡ members_of kept.now) }
{
    let mut members = Map::new(alloc);
    for member in kept {
        let value = value_in(alloc, &member.json)?;
        put(&mut members, alloc, member.name.as_str(), value)?;
    }
    Ok(members)
}

fn e2ee_value(alloc: Global, e2ee: &Timed<bool>) -> Result<Value, AllocError>
    ensures { IfOk result
        (λ value. view value ≡ setting_json (boolean e2ee.now.value) e2ee.now.updated) }
{
    let mut members = Map::new(alloc);
    put(&mut members, alloc, "value", Value::from(e2ee.value))?;
    let time = Value::from(e2ee.updated);
    put(&mut members, alloc, "updatedTime", time)?;
    Ok(Value::from(members))
}

fn active_value(alloc: Global, active: &Timed<Text>) -> Result<Value, AllocError>
    ensures { IfOk result
        (λ value. view value ≡ setting_json (string active.now.value) active.now.updated) }
{
    json!(in alloc; {"value": active.value.as_str(), "updatedTime": active.updated})
}

/// Puts a record's own members among others.
fn put_record(
    alloc: Global,
    members: &mut Map<String, Value>,
    key: &KeyRecord,
) -> Result<(), AllocError>
    ensures { IfOk result (λ _. members_view members.new.entries
        ≡ put_all (record_members key.now) (members_view members.old.entries)) }
{
    put(members, alloc, "updated_time", Value::from(key.updated))?;
    let id = Value::try_from_str(alloc, key.id.as_str())?;
    put(members, alloc, "id", id)?;
    let content = Value::try_from_str(alloc, key.content.as_str())?;
    put(members, alloc, "content", content)?;
    Ok(())
}

fn record_value(alloc: Global, key: &KeyRecord) -> Result<Value, AllocError>
    requires { IsKeyRecord key.now }
    ensures { IfOk result (λ value. view value ≡ record_json key.now) }
{
    let mut members = members_of(alloc, key.others.as_slice())?;
    put_record(alloc, &mut members, key)?;
    Ok(Value::from(members))
}

fn records_value(alloc: Global, keys: &[KeyRecord]) -> Result<Value, AllocError>
    requires { AllByRecursion IsKeyRecord keys.now }
    ensures { IfOk result (λ value. view value ≡ array (records_json keys.now)) }
{
    let mut items = Vec::new(alloc);
    for key in keys {
        items.push(record_value(alloc, key)?)?;
    }
    Ok(Value::from(items))
}

/// Puts an info's own members among others.
fn put_info(alloc: Global, members: &mut Map<String, Value>, info: &Info) -> Result<(), AllocError>
    requires { AllByRecursion IsKeyRecord info.now.keys }
    ensures { IfOk result (λ _. members_view members.new.entries
        ≡ put_all (info_members info.now) (members_view members.old.entries)) }
{
    put(members, alloc, "version", Value::from(info.version))?;
    let keys = records_value(alloc, info.keys.as_slice())?;
    put(members, alloc, "masterKeys", keys)?;
    let e2ee = e2ee_value(alloc, &info.e2ee)?;
    put(members, alloc, "e2ee", e2ee)?;
    let active = active_value(alloc, &info.active)?;
    put(members, alloc, "activeMasterKeyId", active)?;
    Ok(())
}

fn info_value(alloc: Global, info: &Info) -> Result<Value, AllocError>
    requires { IsInfo info.now }
    ensures { IfOk result (λ value. view value ≡ info_json info.now) }
{
    let mut members = members_of(alloc, info.others.as_slice())?;
    put_info(alloc, &mut members, info)?;
    Ok(Value::from(members))
}

/// The text of an info: compact JSON, whose members stand in the order of their names.
pub fn write_info(alloc: Global, info: &Info) -> Result<Bytes, AllocError>
    requires { IsInfo info.now }
    ensures text { IfOk result (λ bytes. bytes ≡ info_text info.now) }
    ensures reads_back { IfOk result (λ bytes. info_in bytes ≡ Some info.now) }
    ensures version { IfOk result
        (λ bytes. (has_old : Bool) → version_of (Some bytes) has_old ≡ Some info.now.version) }
{
    let value = info_value(alloc, info)?;
    Ok(Bytes::from_vec(value.to_vec(alloc)?))
}

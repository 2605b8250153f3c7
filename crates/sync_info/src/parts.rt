ghost use Rattle.std.specs.Prelude.{◌≡◌, IfOk, option_map, Some};
ghost use Rattle.jop_base.specs.Id.{is_id};
ghost use Rattle.serde_json.specs.View.{view};
ghost use Rattle.sync_info.specs.Info.{is_key_name};
ghost use Rattle.sync_info.specs.Read.{option_filter, version_in, time_of, json_id, key_name_of, e2ee_of, e2ee_in, active_of, active_in};

use crate::timed::Timed;
use jop_base::{Id, MAX_TIME, Text};
use serde_json::Value;
use std::alloc::{AllocError, Global};

pub(crate) fn time_of(value: &Value) -> Option<u64>
    ensures { result ≡ time_of (view value.now) }
{
    let time = value.as_u64()?;
    if time <= MAX_TIME { Some(time) } else { None }
}

fn read_id(text: &str) -> Option<Id>
    ensures { result ≡ option_filter is_id (Some text.now) }
{
    Id::read(text.as_bytes())
}

pub(crate) fn id_of(value: &Value) -> Option<Id>
    ensures { result ≡ json_id (view value.now) }
{
    read_id(value.as_str()?)
}

fn is_key_name(name: &str) -> bool
    ensures { result ≡ is_key_name name.now }
{
    name.is_empty() || read_id(name).is_some()
}

/// The id of a key, or the empty text.
fn key_name_of(value: &Value) -> Option<&str>
    ensures { option_map (λ s. s.now) result ≡ key_name_of (view value.now) }
{
    let name = value.as_str()?;
    if is_key_name(name) { Some(name) } else { None }
}

pub(crate) fn version_in(value: &Value) -> Option<u64>
    ensures { result ≡ version_in (view value.now) }
{
    value.get("version")?.as_u64()
}

fn e2ee_of(value: &Value) -> Option<Timed<bool>>
    ensures { result ≡ e2ee_of (view value.now) }
{
    Some(Timed {
        value: value.get("value").and_then(Value::as_bool)?,
        updated: value.get("updatedTime").and_then(time_of)?,
    })
}

fn active_of(alloc: Global, value: &Value) -> Result<Option<Timed<Text>>, AllocError>
    ensures { IfOk result (λ active. active ≡ active_of (view value.now)) }
{
    let Some(name) = value.get("value").and_then(key_name_of) else {
        return Ok(None);
    };
    let Some(updated) = value.get("updatedTime").and_then(time_of) else {
        return Ok(None);
    };
    Ok(Some(Timed {
        value: Text::of(alloc, name)?,
        updated,
    }))
}

/// Where it is absent, sealing was never asked for.
pub(crate) fn e2ee_in(value: &Value) -> Option<Timed<bool>>
    ensures { result ≡ e2ee_in (view value.now) }
{
    match value.get("e2ee") {
        Some(e2ee) => e2ee_of(e2ee),
        None => Some(Timed {
            value: false,
            updated: 0,
        }),
    }
}

/// Where it is absent, no key was ever chosen.
pub(crate) fn active_in(alloc: Global, value: &Value) -> Result<Option<Timed<Text>>, AllocError>
    ensures { IfOk result (λ active. active ≡ active_in (view value.now)) }
{
    match value.get("activeMasterKeyId") {
        Some(active) => active_of(alloc, active),
        None => Ok(Some(Timed {
            value: Text::new(alloc),
            updated: 0,
        })),
    }
}

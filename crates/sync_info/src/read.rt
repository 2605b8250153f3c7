ghost use Rattle.std.specs.Prelude.{◌≡◌, None, Some, false, IfOk};
ghost use Rattle.serde_json.specs.View.{view};
ghost use Rattle.serde_json.specs.Written.{has_float};
ghost use Rattle.sync_info.specs.Info.{IsInfo};
ghost use Rattle.sync_info.specs.Read.{whole_value, info_of, info_in};

use crate::bad_info::{BadInfo, InfoErr};
use crate::holder::Holder;
use crate::info::Info;
use crate::kept::kept_in;
use crate::keys::keys_in;
use crate::parts::{active_in, e2ee_in, version_in};
use crate::whole::has_float;
use serde_json::Value;
use std::alloc::{AllocError, Global};

/// None if the value is no object of an info.
fn info_of(alloc: Global, value: &Value) -> Result<Option<Info>, AllocError>
    requires { has_float (view value.now) ≡ false }
    ensures { IfOk result (λ found. found ≡ info_of (view value.now)) }
{
    let Some(version) = version_in(value) else {
        return Ok(None);
    };
    let Some(e2ee) = e2ee_in(value) else {
        return Ok(None);
    };
    let Some(active) = active_in(alloc, value)? else {
        return Ok(None);
    };
    let Some(keys) = keys_in(alloc, value)? else {
        return Ok(None);
    };
    Ok(Some(Info {
        version,
        e2ee,
        active,
        keys,
        others: kept_in(alloc, value, Holder::Info)?,
    }))
}

/// The JSON value of a text, if its numbers are whole ones.
fn read_value(alloc: Global, text: &[u8]) -> Result<Value, InfoErr>
    ensures ok { IfOk result (λ value. whole_value text.now ≡ Some (view value)) }
    ensures whole { IfOk result (λ value. has_float (view value) ≡ false) }
    ensures bad { result ≡ Err (InfoErr.Bad (record {})) → whole_value text.now ≡ None }
{
    let value = match Value::from_slice(alloc, text) {
        Ok(value) => value,
        Err(e) if e.is_memory() => return Err(InfoErr::NoMemory),
        Err(_) => return Err(InfoErr::Bad(BadInfo)),
    };
    if has_float(&value) {
        return Err(InfoErr::Bad(BadInfo));
    }
    Ok(value)
}

/// The info that a text holds.
pub fn read_info(alloc: Global, text: &[u8]) -> Result<Info, InfoErr>
    ensures ok { IfOk result (λ info. info_in text.now ≡ Some info) }
    ensures valid { IfOk result IsInfo }
    ensures bad { result ≡ Err (InfoErr.Bad (record {})) → info_in text.now ≡ None }
{
    let value = read_value(alloc, text)?;
    match info_of(alloc, &value)? {
        Some(info) => Ok(info),
        None => Err(InfoErr::Bad(BadInfo)),
    }
}

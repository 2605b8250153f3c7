ghost use Rattle.std.specs.Prelude.{◌≡◌, ◌≤◌, ℕ, false, IfOk};
ghost use Rattle.serde_json.specs.Data.{depth};
ghost use Rattle.serde_json.specs.Read.{max_depth};
ghost use Rattle.serde_json.specs.View.{view};
ghost use Rattle.serde_json.specs.Written.{has_float, compact_text};
ghost use Rattle.sync_info.specs.Info.{IsCompact};

use jop_base::{Copied, Text};
use serde_json::Value;
use std::alloc::{AllocError, Global};

/// A member that is kept as it was read: its name, and its value as compact JSON.
#[derive(Debug, PartialEq, Eq, Drop)]
pub struct Member {
    pub name: Text,
    pub json: Text,
}

impl Member {
    pub(crate) fn new(alloc: Global, name: &str, value: &Value) -> Result<Member, AllocError>
        requires { has_float (view value.now) ≡ false }
        ensures member { IfOk result (λ m. m
            ≡ record { name = name.now; json = compact_text (view value.now) }) }
        ensures compact { IfOk result (λ m. depth (view value.now) ≤ max_depth
            → (limit : ℕ) → depth (view value.now) ≤ limit → IsCompact limit m.json) }
    {
        let json = value.to_string(alloc)?;
        Ok(Member {
            name: Text::of(alloc, name)?,
            json: Text::of(alloc, json.as_str())?,
        })
    }
}

impl Copied for Member {
    fn copy(&self, alloc: Global) -> Result<Member, AllocError> {
        Ok(Member {
            name: self.name.copy(alloc)?,
            json: self.json.copy(alloc)?,
        })
    }
}

use jop_base::Text;
use std::alloc::AllocError;
use std::env::{self, VarError};

/// The variable that has the password of the user whom the URL of a target names.
const PASSWORD: &str = "JOP_TARGET_PASSWORD";

/// What it has; nothing if it isn't set, or isn't UTF-8. It is handed to the opener alone.
pub fn read_password(rt: &HostRuntime) -> Result<Text, AllocError> {
    match env::var(rt, PASSWORD) {
        Ok(value) => Text::of(rt.alloc(), value.as_str()),
        Err(VarError::NotPresent | VarError::NotUnicode) => Ok(Text::new(rt.alloc())),
        Err(VarError::OutOfMemory) => Err(AllocError),
    }
}

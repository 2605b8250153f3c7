ghost use Rattle.std.specs.Prelude.{◌≡◌, ◌↔◌, IsTrue};
ghost use Rattle.httparse.specs.Grammar.{EndsInTarget};
ghost use Rattle.dav_wire.specs.TargetStages.{after_byte, after_bytes};

use httparse::{is_method_token, is_uri_token};

/// How far a request line has come.
#[derive(Clone, Copy, Debug, PartialEq, Eq)]
pub(crate) enum Stage {
    /// Among the empty lines before it.
    Blank,
    /// After a carriage return there.
    Return,
    Method,
    Target,
    /// Past the target, or in no request line.
    Other,
}

fn after_byte(stage: Stage, byte: u8) -> Stage
    ensures { result ≡ after_byte stage byte }
{
    match stage {
        Stage::Blank => {
            if byte == b'\r' {
                Stage::Return
            } else if byte == b'\n' {
                Stage::Blank
            } else if is_method_token(byte) {
                Stage::Method
            } else {
                Stage::Other
            }
        }
        Stage::Return => {
            if byte == b'\n' {
                Stage::Blank
            } else {
                Stage::Other
            }
        }
        Stage::Method => {
            if byte == b' ' {
                Stage::Target
            } else if is_method_token(byte) {
                Stage::Method
            } else {
                Stage::Other
            }
        }
        Stage::Target => {
            if is_uri_token(byte) {
                Stage::Target
            } else {
                Stage::Other
            }
        }
        Stage::Other => Stage::Other,
    }
}

fn stage_of(bytes: &[u8]) -> Stage
    ensures { result ≡ after_bytes Stage.Blank bytes.now }
{
    let mut stage = Stage::Blank;
    for byte in bytes {
        stage = after_byte(stage, *byte);
    }
    stage
}

/// Whether the bytes end within the target of a request line.
pub(crate) fn ends_in_target(bytes: &[u8]) -> bool
    ensures { IsTrue result ↔ EndsInTarget bytes.now }
{
    matches!(stage_of(bytes), Stage::Target)
}

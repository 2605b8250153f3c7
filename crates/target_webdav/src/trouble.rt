use jop_target::Call;
use std::alloc::{AllocError, Global};

/// Why a call failed.
#[derive(Clone, Copy, Debug, PartialEq, Eq)]
pub(crate) enum Trouble {
    /// No whole answer came.
    Unanswered,
    /// The answer has this status, and is no reply to the call.
    Status(u16),
}

/// What a status says to a user.
fn reason(status: u16) -> &'static str {
    match status {
        200..=299 => "what came with it isn't read, or the server's clock is false",
        300..=399 => "the server wants another address",
        401 => "the user or the password isn't taken",
        404 | 409 => "the folder of the URL isn't there",
        403 | 405 | 501 => "the server lets nobody do that there, or doesn't speak WebDAV",
        413 | 507 => "there is no room",
        423 => "another program has locked it",
        429 | 503 => "the server asks to wait",
        _ => "the server doesn't do it",
    }
}

/// A line for the user.
pub(crate) fn trouble_line(
    alloc: Global,
    call: &Call,
    trouble: Trouble,
) -> Result<String, AllocError> {
    match trouble {
        Trouble::Unanswered => format!(in alloc; "webdav: {call}: no whole answer came\n"),
        Trouble::Status(status) => {
            let why = reason(status);
            format!(in alloc; "webdav: {call}: {status}, {why}\n")
        }
    }
}

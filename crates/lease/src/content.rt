ghost use Rattle.std.specs.Prelude.{◌≡◌, IfOk};
ghost use Rattle.lease.specs.Locks.{content_of};

use jop_base::{Bytes, ClientId, LockKind, Text};
use std::alloc::{AllocError, Global};

/// The content of the client's own lock, 71 bytes of JSON. Nobody reads it: a lock's name and stamp
/// decide.
pub(crate) fn own_content(
    alloc: Global,
    kind: LockKind,
    client: &ClientId,
) -> Result<Bytes, AllocError>
    ensures { IfOk result (λ content. content ≡ content_of kind client.now) }
{
    let mut text = Text::of(alloc, "{\"type\":")?;
    text.push(char::from(kind.digit()))?;
    text.append(",\"clientType\":3,\"clientId\":\"")?;
    text.append(client.as_str())?;
    text.append("\"}")?;
    Ok(text.into_bytes())
}

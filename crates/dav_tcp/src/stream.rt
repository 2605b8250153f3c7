ghost use Rattle.std.specs.Prelude.{◌≡◌, ◌*◌, ◌≤◌, IfOk, length};
ghost use Rattle.std.specs.Duration.{as_nanos};
ghost use Rattle.dav_tcp.specs.Limits.{wait_millis};

use std::io;
use std::io::{ErrorKind, Read, Write};
use std::net::OpenStream;
use std::time::Duration;

/// How many seconds one read or one write may wait for the peer.
const WAIT_SECONDS: u64 = 20;

/// How long one read or one write is given to wait for the peer.
fn wait() -> Duration
    ensures { as_nanos result ≡ wait_millis * 1_000_000 }
{
    Duration::from_secs(WAIT_SECONDS)
}

/// Has a stream send each message at once, and bounds how long a read or a write waits.
pub(crate) fn prepare<S: OpenStream>(stream: &S) -> io::Result<()> {
    let _ = stream.set_nodelay(true);
    stream.set_read_timeout(Some(wait()))?;
    stream.set_write_timeout(Some(wait()))
}

/// Reads, and again each time that a signal interrupts it.
pub(crate) fn read_on<R: Read>(reader: &mut R, into: &mut [u8]) -> io::Result<usize>
    ensures within { IfOk result (λ count. count ≤ length into.old) }
    ensures length { length into.new ≡ length into.old }
{
    for _ in 0..u64::MAX {
        match reader.read(into) {
            Err(error) if error.kind() == ErrorKind::Interrupted => {}
            read => return read,
        }
    }
    Err(io::Error::from(ErrorKind::Interrupted))
}

/// Writes, and again each time that a signal interrupts it.
pub(crate) fn write_on<W: Write>(writer: &mut W, from: &[u8]) -> io::Result<usize>
    ensures within { IfOk result (λ count. count ≤ length from.now) }
{
    for _ in 0..u64::MAX {
        match writer.write(from) {
            Err(error) if error.kind() == ErrorKind::Interrupted => {}
            written => return written,
        }
    }
    Err(io::Error::from(ErrorKind::Interrupted))
}

ghost use Rattle.std.specs.Prelude.{flat_map};
ghost use Rattle.jop_outside.specs.Writing.{WritesAll};

use crate::failed::Failed;
use crate::sink::Sink;

/// Writes all of these bytes. After `Failed` a prefix of them was written.
pub fn write_whole<S: Sink>(sink: &mut S, bytes: &[u8]) -> Result<(), Failed>
    ensures { WritesAll (S.state sink.old) bytes.now result (S.state sink.new) }
{
    let mut rest = bytes;
    while !rest.is_empty() {
        let count = sink.write(rest)?;
        let (_, left) = rest.split_at(count);
        rest = left;
    }
    Ok(())
}

/// Writes all of these parts, one after the other. After `Failed` a prefix of them was written.
pub fn write_parts<S: Sink>(sink: &mut S, parts: &[&[u8]]) -> Result<(), Failed>
    ensures { let bytes = flat_map (λ part. part.now) parts.now in
        WritesAll (S.state sink.old) bytes result (S.state sink.new) }
{
    for part in parts {
        write_whole(sink, part)?;
    }
    Ok(())
}

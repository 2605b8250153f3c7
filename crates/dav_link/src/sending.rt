ghost use Rattle.jop_outside.specs.Writing.{WritesAll};
ghost use Rattle.dav_link.specs.Links.{WritesAlone, sink_of};

use crate::link::Link;
use jop_outside::Failed;

/// Writes all of these bytes. After `Failed` a prefix of them was written.
pub fn write_message<L: Link>(link: &mut L, bytes: &[u8]) -> Result<(), Failed>
    ensures written { WritesAll (sink_of (L.state link.old)) bytes.now result (sink_of (L.state link.new)) }
    ensures alone { WritesAlone (L.state link.old) (L.state link.new) }
{
    let mut rest = bytes;
    while !rest.is_empty() {
        let count = link.write(rest)?;
        let (_, left) = rest.split_at(count);
        rest = left;
    }
    Ok(())
}

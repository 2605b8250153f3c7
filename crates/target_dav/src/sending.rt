ghost use Rattle.std.specs.Prelude.{◌++◌};
ghost use Rattle.jop_outside.specs.Writing.{WritesAll};
ghost use Rattle.dav_link.specs.Links.{WritesAlone, sink_of};

use dav_link::{Link, write_message};
use jop_outside::Failed;

/// Writes all of both, the one behind the other. After `Failed` a prefix of them was written.
pub(crate) fn write_both<L: Link>(link: &mut L, first: &[u8], rest: &[u8]) -> Result<(), Failed>
    ensures written { WritesAll (sink_of (L.state link.old)) (first.now ++ rest.now) result
        (sink_of (L.state link.new)) }
    ensures alone { WritesAlone (L.state link.old) (L.state link.new) }
{
    write_message(link, first)?;
    write_message(link, rest)?;
    Ok(())
}

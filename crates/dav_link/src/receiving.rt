ghost use Rattle.dav_link.specs.Receiving.{ReadsMore};

use crate::error::LinkErr;
use crate::link::Link;
use jop_base::Bytes;

/// How many bytes are asked for at once.
const PIECE: usize = 65_536;

/// Reads until at least so many bytes more are kept: whether they came before the link's end.
/// `Fault` if the link failed. `NoMemory` if the bytes couldn't be kept.
pub fn read_on<L: Link>(link: &mut L, kept: &mut Bytes, count: u64) -> Result<bool, LinkErr>
    ensures { ReadsMore (L.state link.old) kept.old count result (L.state link.new) kept.new }
{
    let mut piece = [0; PIECE];
    let mut missing = count;
    while missing > 0 {
        let taken = link.read(&mut piece)?;
        if taken == 0 {
            return Ok(false);
        }
        kept.append(&piece[..taken])?;
        missing = missing.saturating_sub(taken as u64);
    }
    Ok(true)
}

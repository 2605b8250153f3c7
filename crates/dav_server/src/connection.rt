ghost use Rattle.dav_server.specs.Serving.{ServesAll};

use crate::error::ServeErr;
use crate::turn::{Next, serve_next};
use dav_link::Link;
use jop_base::Bytes;
use jop_target::Line;
use std::alloc::Global;

/// Answers the requests that come over a link, which is open, in their order, and gives how many it answered. For each
/// that asks for a call it makes that call on the line, and no other, and writes the response of the reply.
///
/// It ends behind a request that says `Connection: close` or that is refused as none, at the link's end, also amid a
/// request, or after 2^64 - 1 requests.
///
/// `LinkFault` comes only if the link's count rose. `NoMemory` ends the connection without a response to the request at
/// hand; it comes too for a method other than PUT that announces a body of more than 64 MiB.
pub fn serve_connection<L: Link, N: Line>(
    alloc: Global,
    link: &mut L,
    line: &mut N,
) -> Result<u64, ServeErr>
    ensures serves { ServesAll (L.state link.old) (N.state line.old) result
        (L.state link.new) (N.state line.new) }
    ensures keeps { N.keeps line.old line.new }
{
    let mut kept = Bytes::new(alloc);
    let mut date = 0;
    for count in 0..u64::MAX {
        match serve_next(alloc, link, line, &mut kept, &mut date)? {
            Next::Another => {}
            Next::Over => return Ok(count + 1),
            Next::Ended => return Ok(count),
        }
    }
    Ok(u64::MAX)
}

ghost use Rattle.std.specs.Prelude.{◌≡◌, ◌≤◌, drop, length};
ghost use Rattle.jop_base.specs.Times.{last_time};
ghost use Rattle.dav_server.specs.Serving.{Turns};

use crate::answering::answer;
use crate::error::ServeErr;
use crate::next_request::hear;
use dav_link::{Link, write_message};
use dav_wire::{ReadRequest, write_refusal};
use jop_base::Bytes;
use jop_target::Line;
use std::alloc::Global;
use std::mem;

/// What comes after a turn.
#[derive(Clone, Copy, Debug, PartialEq, Eq)]
pub(crate) enum Next {
    /// A request was answered, and another may follow.
    Another,
    /// A request was answered, and the connection ends behind it.
    Over,
    /// The link has ended, and no request was answered.
    Ended,
}

/// Takes so many bytes away from the front.
fn drop_first(alloc: Global, kept: &mut Bytes, count: usize)
    requires { count ≤ length kept.old }
    ensures { kept.new ≡ drop count kept.old }
{
    let mut bytes = mem::replace(kept, Bytes::new(alloc)).into_vec();
    let left = bytes.len() - count;
    bytes.as_mut_slice().rotate_left(count);
    bytes.truncate(left);
    *kept = Bytes::from_vec(bytes);
}

/// Reads on to the next request, makes its call, and writes its response. `kept` are the bytes that
/// came and weren't used, and `date` is the greatest moment that was told so far, in milliseconds
/// since 1970.
pub(crate) fn serve_next<L: Link, N: Line>(
    alloc: Global,
    link: &mut L,
    line: &mut N,
    kept: &mut Bytes,
    date: &mut u64,
) -> Result<Next, ServeErr>
    requires { date.old ≤ last_time }
    ensures turns { Turns L.state N.state link.old line.old kept.old date.old result
        link.new line.new kept.new date.new }
    ensures date { date.new ≤ last_time }
    ensures keeps { N.keeps line.old line.new }
{
    match hear(alloc, link, kept)? {
        ReadRequest::More => Ok(Next::Ended),
        ReadRequest::Bad(status) => {
            let text = write_refusal(alloc, status, *date)?;
            write_message(link, text.as_slice())?;
            Ok(Next::Over)
        }
        ReadRequest::Whole { request, used } => {
            let close = request.close;
            let text = answer(alloc, line, request, date)?;
            write_message(link, text.as_slice())?;
            drop_first(alloc, kept, used as usize);
            Ok(if close { Next::Over } else { Next::Another })
        }
    }
}

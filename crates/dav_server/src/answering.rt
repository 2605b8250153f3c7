ghost use Rattle.std.specs.Prelude.{◌≡◌, ◌≤◌, Some};
ghost use Rattle.jop_base.specs.Times.{last_time};
ghost use Rattle.jop_target.specs.Replies.{IsCallable};
ghost use Rattle.jop_target.specs.Trail.{moment_of};
ghost use Rattle.dav_server.specs.Serving.{CallsOrNot, IsAnswerable, RespondsOrNot, later_date};

use dav_wire::{Request, write_refusal, write_response};
use jop_base::{Bytes, Copied};
use jop_target::{Call, Line, Reply};
use std::alloc::{AllocError, Global};

/// The greatest moment that was told, after one reply more.
fn later_date(date: u64, reply: &Reply) -> u64
    ensures { result ≡ later_date date (moment_of reply.now) }
{
    match reply.moment() {
        None => date,
        Some(now) => date.max(now),
    }
}

/// Makes a call, and gives the response that tells its reply. `date`, in milliseconds since 1970, stands in it if the
/// reply has no moment.
fn make_call<N: Line>(
    alloc: Global,
    line: &mut N,
    call: Call,
    blob: &mut Bytes,
    date: &mut u64,
) -> Result<Bytes, AllocError>
    requires callable { IsCallable call blob.old }
    requires date { date.old ≤ last_time }
    ensures answers { CallsOrNot call blob.old (N.state line.old) date.old result
        (N.state line.new) date.new }
    ensures date { date.new ≤ last_time }
    ensures keeps { N.keeps line.old line.new }
{
    let asked = call.copy(alloc)?;
    line.call(alloc, call, blob)?;
    let reply = line.last();
    let text = write_response(alloc, &asked, reply, blob, *date)?;
    *date = later_date(*date, reply);
    Ok(text)
}

/// The response to a request, after its call, if it asks for one.
pub(crate) fn answer<N: Line>(
    alloc: Global,
    line: &mut N,
    request: Request,
    date: &mut u64,
) -> Result<Bytes, AllocError>
    requires answerable { IsAnswerable request.call request.blob }
    requires date { date.old ≤ last_time }
    ensures answers { RespondsOrNot request (N.state line.old) date.old result
        (N.state line.new) date.new }
    ensures date { date.new ≤ last_time }
    ensures keeps { N.keeps line.old line.new }
{
    let Request {
        call,
        mut blob,
        close: _,
        refusal,
    } = request;
    match call {
        Some(call) => {
            let text = make_call(alloc, line, call, &mut blob, date)?;
            Ok(text)
        }
        None => {
            let text = write_refusal(alloc, refusal, *date)?;
            Ok(text)
        }
    }
}

ghost use Rattle.std.specs.Prelude.{IfOk};
ghost use Rattle.dav_link.specs.Awaiting.{AwaitsHead, AwaitsMessage, HasHead, OpensOrNot};

use crate::error::LinkErr;
use crate::link::Link;
use crate::message::Message;
use crate::receiving::read_on;
use jop_base::Bytes;
use std::alloc::{AllocError, Global};

/// Whether no head is whole, and one may still be.
fn is_open<M: Message>(alloc: Global, message: &M, bytes: &[u8]) -> Result<bool, AllocError>
    ensures { IfOk result (OpensOrNot (M.reads message.now) bytes.now) }
{
    match message.missing(bytes) {
        Some(_) => Ok(false),
        None => {
            let more = message.is_more(alloc, bytes)?;
            Ok(more)
        }
    }
}

/// Reads until the head is whole, or no head can be: false if the link ended before.
fn await_head<L: Link, M: Message>(
    alloc: Global,
    link: &mut L,
    message: &M,
    kept: &mut Bytes,
) -> Result<bool, LinkErr>
    ensures { AwaitsHead (M.reads message.now) (L.state link.old) kept.old result
        (L.state link.new) kept.new }
{
    while is_open(alloc, message, kept.as_slice())? {
        if !read_on(link, kept, 1)? {
            return Ok(false);
        }
    }
    Ok(true)
}

/// Reads until the body is whole too: false if the link ended before.
fn await_body<L: Link, M: Message>(
    link: &mut L,
    message: &M,
    kept: &mut Bytes,
) -> Result<bool, LinkErr>
    requires { HasHead (M.reads message.now) kept.old }
    ensures { AwaitsMessage (M.reads message.now) (L.state link.old) kept.old result
        (L.state link.new) kept.new }
{
    match message.missing(kept.as_slice()) {
        None => Ok(true),
        Some(missing) => {
            if missing > message.limit() {
                return Err(LinkErr::TooLong);
            }
            let came = read_on(link, kept, missing)?;
            Ok(came)
        }
    }
}

/// Reads until the bytes that are kept begin with a whole message, or with one that is refused: false if
/// the link ended before. `Fault` if the link failed, `NoMemory` if the bytes couldn't be kept, `TooLong` if
/// the head tells that more are missing than the message's limit.
pub fn await_message<L: Link, M: Message>(
    alloc: Global,
    link: &mut L,
    message: &M,
    kept: &mut Bytes,
) -> Result<bool, LinkErr>
    ensures { AwaitsMessage (M.reads message.now) (L.state link.old) kept.old result
        (L.state link.new) kept.new }
{
    if !await_head(alloc, link, message, kept)? {
        return Ok(false);
    }
    let came = await_body(link, message, kept)?;
    Ok(came)
}

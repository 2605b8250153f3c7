ghost use Rattle.std.specs.Prelude.{◌≡◌, ◌+◌, ◌-◌, ◌^◌, ◌<◌, ℕ, Ok};
ghost use Rattle.std.specs.Bool.{OnTrue, OnFalse};
ghost use Rattle.http1.specs.Client.{client_eof};
ghost use Rattle.http1.specs.declared.conn.Event.TheVariants as events;
ghost use Rattle.http1.specs.declared.conn.Reading.TheVariants.{Body as InBody};
ghost use Rattle.http1.specs.declared.decode.Decoder.{Decoder};
ghost use Rattle.http1.specs.declared.framing.Framing.{Framing};
ghost use Rattle.http1.specs.Decoder.{decoder_for};
ghost use Rattle.http_exchange.specs.Steps.{AwaitsCarried, LooksAt};

use crate::head::{FIELD_LIMIT, rest_of};
use dav_link::{Link, LinkErr, read_on};
use http1::{Client, Event};
use httparse::spans::EMPTY_HEADER_SPAN;
use jop_base::Bytes;
use std::alloc::Global;

/// What the bytes that came so far give of a body.
#[derive(Clone, Copy, Debug, PartialEq, Eq)]
pub(crate) enum Look {
    /// No piece of it.
    More,
    /// A piece.
    Piece,
    /// Its end.
    End,
}

/// Takes the next piece of a body out of the unread bytes, and puts it behind those before. `Fault` if no body comes,
/// or if it has more bytes than the limit.
pub(crate) fn take_piece(
    alloc: Global,
    client: &mut Client,
    unread: &mut Bytes,
    body: &mut Bytes,
    limit: usize,
) -> Result<Look, LinkErr>
    ensures { (d : Decoder) → client.old.reading ≡ InBody d
        → LooksAt client.old d unread.old body.old limit result client.new unread.new body.new }
{
    let mut spans = [EMPTY_HEADER_SPAN; FIELD_LIMIT];
    let Ok(progress) = client.read(unread.as_slice(), &mut spans) else {
        return Err(LinkErr::Fault);
    };
    match progress.event {
        Event::Data(span) => {
            let piece = span.of(unread.as_slice());
            if piece.len() > limit.saturating_sub(body.len()) {
                return Err(LinkErr::Fault);
            }
            body.append(piece)?;
            *unread = rest_of(alloc, unread, progress.consumed)?;
            Ok(Look::Piece)
        }
        Event::End(_) => {
            *unread = rest_of(alloc, unread, progress.consumed)?;
            Ok(Look::End)
        }
        Event::NeedMore => {
            *unread = rest_of(alloc, unread, progress.consumed)?;
            Ok(Look::More)
        }
        Event::Head(_) => Err(LinkErr::Fault),
        Event::Informational(_) => Err(LinkErr::Fault),
        Event::Paused => Err(LinkErr::Fault),
        Event::Upgraded => Err(LinkErr::Fault),
        Event::Closed => Err(LinkErr::Fault),
    }
}

/// Whether the body ends where the link has ended.
fn ends_here(client: &mut Client) -> bool
    ensures ends { OnTrue result
        ((count : ℕ) × ((client_eof client.old).0 ≡ Ok (events.End count))) }
    ensures cut { OnFalse result
        ((count : ℕ) → ¬ ((client_eof client.old).0 ≡ Ok (events.End count))) }
{
    match client.read_eof() {
        Ok(Event::End(_)) => true,
        Ok(Event::NeedMore) => false,
        Ok(Event::Head(_)) => false,
        Ok(Event::Informational(_)) => false,
        Ok(Event::Data(_)) => false,
        Ok(Event::Paused) => false,
        Ok(Event::Upgraded) => false,
        Ok(Event::Closed) => false,
        Err(_) => false,
    }
}

/// Reads the body behind a head: the bytes that it carries. `unread` has what came behind the head, and then what came
/// behind the body. `Fault` if the link failed, if it ended before the body did, if no body comes, if it has more bytes
/// than the limit, or if more than `most` bytes came.
pub(crate) fn await_body<L: Link>(
    alloc: Global,
    link: &mut L,
    client: &mut Client,
    unread: &mut Bytes,
    limit: usize,
    most: u64,
) -> Result<Bytes, LinkErr>
    requires bounded { limit + most < 2 ^ 64 - 1 }
    ensures { (framing : Framing)
        → client.old.reading ≡ InBody (decoder_for client.old.limits framing)
        → AwaitsCarried client.old.limits framing (L.state link.old) unread.old limit most result
        (L.state link.new) unread.new }
{
    let mut body = Bytes::new(alloc);
    let mut room = most;
    for round in 0..u64::MAX {
        match take_piece(alloc, client, unread, &mut body, limit)? {
            Look::Piece => {}
            Look::End => return Ok(body),
            Look::More => {
                let before = unread.len();
                if !read_on(link, unread, 1)? {
                    if ends_here(client) {
                        return Ok(body);
                    }
                    return Err(LinkErr::Fault);
                }
                let came = unread.len().saturating_sub(before) as u64;
                if came > room {
                    return Err(LinkErr::Fault);
                }
                room -= came;
            }
        }
    }
    Err(LinkErr::Fault)
}

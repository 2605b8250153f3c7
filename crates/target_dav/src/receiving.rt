ghost use Rattle.std.specs.Prelude.{◌≡◌, ◌==◌, ◌<◌, ◌↔◌, IfOk, IsTrue};
ghost use Rattle.jop_target.specs.declared.call.Call.{Call as Asked};
ghost use Rattle.dav_link.specs.Links.{LinkNow};
ghost use Rattle.reply_reader.specs.Pieces.{FallsBelow, HasTold, Stands, TakesMore, missing_of, room_of};
ghost use Rattle.reply_reader.specs.declared.state.State.TheVariants.{Told};
ghost use Rattle.target_dav.specs.Responses.{IsReading, ReadsPiece, Receives, response_limit};

use crate::budget::response_limit;
use dav_link::{Link, LinkErr};
use jop_base::Bytes;
use jop_target::{Call, Reply};
use reply_reader::{Fed, ReplyReader};
use std::alloc::Global;

/// How many bytes are asked for at once.
const PIECE: usize = 65_536;

/// What a response tells.
#[derive(Debug, Drop)]
pub(crate) struct Received {
    pub(crate) reply: Reply,
    /// The bytes of the blob that was got, and else none.
    pub(crate) blob: Bytes,
    /// Whether no byte came behind it.
    pub(crate) alone: bool,
    /// Whether the server leaves the link open behind it.
    pub(crate) lasts: bool,
}

/// What a reader tells that has read a response, and so many bytes behind it.
fn taken(reader: ReplyReader, rest: u64) -> Received
    requires { HasTold reader.state }
    ensures told { reader.state ≡ Told result.reply result.blob }
    ensures alone { result.alone ≡ (rest == 0) }
    ensures lasts { result.lasts ≡ reader.lasts }
{
    let lasts = reader.leaves_open();
    let (reply, blob) = reader.take();
    Received {
        reply,
        blob,
        alone: rest == 0,
        lasts,
    }
}

/// Whether more bytes are missing of the body than are waited for.
fn is_too_long(reader: &ReplyReader, call: &Call) -> bool
    ensures { IsTrue result ↔ (response_limit call.now < missing_of reader.now.state) }
{
    reader.missing() > response_limit(call)
}

/// Reads a piece more of a response. `Fault` if the link failed, or ended there.
fn read_piece<L: Link>(
    alloc: Global,
    link: &mut L,
    reader: &mut ReplyReader,
) -> Result<Fed, LinkErr>
    requires takes { TakesMore reader.old.state }
    ensures reads { (call : Asked) (first : LinkNow)
        → IsReading call first (L.state link.old) reader.old
        → ReadsPiece call first result (L.state link.new) reader.new }
    ensures stands { IfOk result (λ fed. Stands fed reader.new.state) }
    ensures falls { IfOk result (λ fed.
        FallsBelow (room_of reader.old.state) fed reader.new.state) }
{
    let mut piece = [0; PIECE];
    let count = link.read(&mut piece)?;
    if count == 0 {
        return Err(LinkErr::Fault);
    }
    let fed = reader.feed(alloc, &piece[..count])?;
    Ok(fed)
}

/// Reads the response to a call. `Fault` if the link failed, if it ended before a whole response, or if what came is no
/// response to this call. `TooLong` if it announces a longer body than is waited for.
pub(crate) fn receive<L: Link>(
    alloc: Global,
    link: &mut L,
    call: &Call,
) -> Result<Received, LinkErr>
    ensures { Receives call.now (L.state link.old) result (L.state link.new) }
{
    let mut reader = ReplyReader::new(alloc, call);
    loop {
        match read_piece(alloc, link, &mut reader)? {
            Fed::More if is_too_long(&reader, call) => return Err(LinkErr::TooLong),
            Fed::More => {}
            Fed::Whole { rest } => return Ok(taken(reader, rest)),
            Fed::Bad => return Err(LinkErr::Fault),
        }
    }
}

ghost use Rattle.std.specs.Prelude.{◌≡◌, ◌≤◌, ◌+◌, length, option_map, Ok, Err, IfOk, IfErr, IfSome};
ghost use Rattle.std.specs.List.{AllPass};
ghost use Rattle.jed_format.specs.Chunk.{is_chunk};
ghost use Rattle.jed_format.specs.Grammar.{IsJedText};
ghost use Rattle.jed_format.specs.Jed.{is_method, piece_in, chunks_in, jed_in};
ghost use Rattle.jed_format.specs.Refusals.{Refuses};

use crate::chunk_reader::read_chunk;
use crate::header::{from, header_in, is_method, length_in};
use crate::jed::Jed;
use crate::jed_err::JedErr;
use crate::sjcl_chunk::SjclChunk;
use jop_base::Seq;
use std::alloc::Global;

/// The piece that a body begins with, behind its length.
fn piece_in(body: &[u8]) -> Option<&[u8]>
    ensures piece { option_map (λ piece. piece.now) result ≡ piece_in body.now }
    ensures inside { IfSome result (λ piece. 6 + length piece.now ≤ length body.now) }
{
    match length_in(body) {
        Some(len) if 6 + len <= body.len() => Some(&body[6..6 + len]),
        _ => None,
    }
}

fn chunks_in(alloc: Global, body: &[u8]) -> Result<Seq<SjclChunk>, JedErr>
    ensures ok { IfOk result (λ chunks. chunks_in body.now ≡ Ok chunks) }
    ensures err { IfErr result (Refuses (chunks_in body.now)) }
    ensures valid { IfOk result (AllPass is_chunk) }
{
    let mut chunks = Seq::new(alloc);
    let mut rest = body;
    for n in 0..body.len() {
        if rest.is_empty() {
            break;
        }
        let number = n as u64 + 1;
        let Some(piece) = piece_in(rest) else {
            return Err(JedErr::BadChunk { n: number });
        };
        let chunk = read_chunk(alloc, piece, number)?;
        chunks.push(chunk)?;
        rest = from(rest, 6 + piece.len());
    }
    Ok(chunks)
}

/// The sealed text that bytes are. Refusals come in the order of the bytes: `NotJed` with the place
/// of the first field of the header that is missing or wrong; `UnsupportedMethod`; for each chunk,
/// `BadChunk` where its length or its object is wrong, and `UnsupportedMode`. It takes time linear
/// in the bytes.
#[tactic(auto, using(crate::proofs::Read::text_of_jed_in), unfolding(crate::specs::Jed::jed_in))]
pub fn read_jed(alloc: Global, text: &[u8]) -> Result<Jed, JedErr>
    ensures ok { IfOk result (λ jed. jed_in text.now ≡ Ok jed) }
    ensures grammar { IfOk result (IsJedText text.now) }
    ensures err { IfErr result (Refuses (jed_in text.now)) }
    ensures valid { IfOk result (λ jed. AllPass is_chunk jed.chunks) }
{
    let (method, key) = header_in(text)?;
    if !is_method(method) {
        return Err(JedErr::UnsupportedMethod(method));
    }
    let chunks = chunks_in(alloc, from(text, 45))?;
    Ok(Jed {
        method,
        key,
        chunks,
    })
}

ghost use Rattle.std.specs.Prelude.{◌≡◌, ℕ, List, OnOk};
ghost use Rattle.dav_wire.specs.ResponseReading.{IsReplyOf};
ghost use Rattle.reply_reader.specs.Pieces.{HasPlainBody, KeepsBody, bare, body_kept};

use crate::layout_reader::LayoutReader;
use dav_wire::Outcome;
use jop_base::Bytes;
use jop_target::{Call, Reply};
use std::alloc::{AllocError, Global};

/// Where the reading of a response stands.
#[derive(Debug, Drop)]
pub(crate) enum State {
    /// No head is whole; these bytes came.
    Head(Bytes),
    /// So many bytes of a body are missing, and these are kept of it.
    Body {
        now: u64,
        outcome: Outcome,
        left: u64,
        kept: Bytes,
    },
    /// So many bytes of the body of a listing are missing.
    Lines {
        now: u64,
        left: u64,
        lines: LayoutReader,
    },
    /// The response is whole, and tells this.
    Told {
        reply: Reply,
        blob: Bytes,
    },
    /// Nothing more is read.
    Over,
}

/// A call without the bytes that it puts, on which no response depends.
pub(crate) fn bare(alloc: Global, call: &Call) -> Call
    ensures { result ≡ bare call.now }
{
    match call {
        Call::List(dir) => Call::List(*dir),
        Call::Get(path) => Call::Get(*path),
        Call::Put(path, _) => Call::Put(*path, Bytes::new(alloc)),
        Call::Delete(path) => Call::Delete(*path),
        Call::MakeDir(dir) => Call::MakeDir(*dir),
        Call::GetBlob(id) => Call::GetBlob(*id),
        Call::PutBlob { id, len } => Call::PutBlob { id: *id, len: *len },
    }
}

/// The reply that a whole body tells, and the blob, of a body that lists no folder.
pub(crate) fn told(alloc: Global, now: u64, outcome: Outcome, kept: Bytes) -> (Reply, Bytes)
    requires { HasPlainBody outcome }
    ensures { (body : List ℕ) → KeepsBody outcome kept body
        → IsReplyOf now outcome body result.0 result.1 }
{
    match outcome {
        Outcome::Content(_) => (Reply::Got { now, content: kept }, Bytes::new(alloc)),
        Outcome::Blob => {
            let len = kept.len() as u64;
            (Reply::GotBlob { now, len }, kept)
        }
        Outcome::Absent => (Reply::Absent { now }, kept),
        Outcome::Done => (Reply::Done { now }, kept),
        Outcome::Listing(_) | Outcome::Other => unreachable!(),
    }
}

/// Keeps more of a body, if it is that of a file.
pub(crate) fn keep(outcome: Outcome, kept: &mut Bytes, piece: &[u8]) -> Result<(), AllocError>
    ensures { OnOk result (kept.new ≡ body_kept outcome kept.old piece.now) }
{
    match outcome {
        Outcome::Content(_) | Outcome::Blob => kept.append(piece)?,
        _ => {}
    }
    Ok(())
}

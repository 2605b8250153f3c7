ghost use Rattle.std.specs.Prelude.{◌≡◌, ◌++◌, ◌+◌, ◌^◌, ◌<◌, ◌≤◌, ℕ, List, IfOk, [], length, take};
ghost use Rattle.dav_wire.specs.HeadReading.{HeadTells, LeavesOpen};
ghost use Rattle.dav_wire.specs.ResponseReading.{IsUnfinished};
ghost use Rattle.dav_wire.specs.declared.frame.Frame.TheVariants.{Body as Counted};
ghost use Rattle.dav_wire.specs.declared.outcome.Outcome.TheVariants.{Listing as Lists};
ghost use Rattle.jop_target.specs.declared.call.Call.{Call as Asked};
ghost use Rattle.reply_reader.specs.Layouts.{HasReadLayout};
ghost use Rattle.reply_reader.specs.Pieces.{FallsBelow, Feeds, HasBeenTold, HasPlainBody, HasTold, KeepsBody, Stands, TakesMore, bare, held_of, missing_of, room_of};
ghost use Rattle.reply_reader.specs.declared.state.State.TheVariants.{Told as Tells};

use crate::fed::Fed;
use crate::layout_reader::LayoutReader;
use crate::state::{State, bare, keep, told};
use dav_wire::{Frame, HEAD_LIMIT, Outcome, ReadHead, read_head};
use jop_base::Bytes;
use jop_target::{Call, Listing, Reply};
use std::alloc::{AllocError, Global};
use std::mem;

/// Reads the response to a call from the pieces in which it comes. It keeps fewer than 16,384 bytes of
/// a head that isn't whole, fewer than 512 of a body that lists a folder beside its files, and else
/// what becomes the reply or the blob.
#[derive(Debug, Drop)]
pub struct ReplyReader {
    /// The call, without the bytes that it puts.
    call: Call,
    /// Whether the connection stays open behind the response, once its head is whole.
    lasts: bool,
    state: State,
}

/// As many bytes of a piece as there is room for.
fn first_bytes(piece: &[u8], room: usize) -> &[u8]
    ensures { result.now ≡ take room piece.now }
{
    if piece.len() < room {
        piece
    } else {
        &piece[..room]
    }
}

impl ReplyReader {
    /// Reads the response to this call.
    pub fn new(alloc: Global, call: &Call) -> ReplyReader
        ensures told { HasBeenTold call.now result [] }
        ensures takes { TakesMore result.state }
    {
        ReplyReader {
            call: bare(alloc, call),
            lasts: false,
            state: State::Head(Bytes::new(alloc)),
        }
    }

    /// How many bytes are kept that are neither in the reply nor in the blob.
    pub fn held(&self) -> u64
        ensures { result ≡ held_of self.now.state }
    {
        match &self.state {
            State::Head(kept) => kept.len() as u64,
            State::Lines { lines, .. } => lines.held(),
            _ => 0,
        }
    }

    /// How many bytes of the body are missing, once the head is whole; else 0.
    pub fn missing(&self) -> u64
        ensures { result ≡ missing_of self.now.state }
    {
        match &self.state {
            State::Body { left, .. } | State::Lines { left, .. } => *left,
            _ => 0,
        }
    }

    /// Whether the connection stays open behind the response, once its head is whole.
    pub fn leaves_open(&self) -> bool
        ensures { result ≡ self.now.lasts }
    {
        self.lasts
    }

    /// The reply, and the bytes of a blob that was got, once the response is whole.
    pub fn take(self) -> (Reply, Bytes)
        requires { HasTold self.state }
        ensures { self.state ≡ Tells result.0 result.1 }
    {
        let ReplyReader { state, .. } = self;
        match state {
            State::Told { reply, blob } => (reply, blob),
            _ => unreachable!(),
        }
    }

    /// Takes the next piece, as long as more is to come: before the first piece, and where the last answer
    /// was `More`. `Bad` comes for a body out of its layout when its last byte came. After want of memory
    /// nothing more is taken.
    pub fn feed(&mut self, alloc: Global, piece: &[u8]) -> Result<Fed, AllocError>
        requires takes { TakesMore self.old.state }
        ensures feeds { (call : Asked) (told : List ℕ) → HasBeenTold call self.old told
            → IfOk result (λ fed. Feeds call (told ++ piece.now) fed self.new) }
        ensures stands { IfOk result (λ fed. Stands fed self.new.state) }
        ensures falls { 0 < length piece.now
            → IfOk result (λ fed. FallsBelow (room_of self.old.state) fed self.new.state) }
    {
        match mem::replace(&mut self.state, State::Over) {
            State::Head(kept) => self.feed_head(alloc, kept, piece),
            State::Body {
                now,
                outcome,
                left,
                kept,
            } => self.feed_body(alloc, now, outcome, left, kept, piece),
            State::Lines { now, left, lines } => self.feed_lines(alloc, now, left, lines, piece),
            State::Told { .. } | State::Over => unreachable!(),
        }
    }

    /// Takes more of a head.
    fn feed_head(&mut self, alloc: Global, kept: Bytes, piece: &[u8]) -> Result<Fed, AllocError>
        requires unfinished { IsUnfinished kept }
        ensures feeds { (call : Asked) → self.old.call ≡ bare call
            → IfOk result (λ fed. Feeds call (kept ++ piece.now) fed self.new) }
        ensures stands { IfOk result (λ fed. Stands fed self.new.state) }
        ensures falls { (room : ℕ) → 2 ^ 64 ≤ room
            → 2 ^ 64 + HEAD_LIMIT < room + (length kept + length piece.now)
            → IfOk result (λ fed. FallsBelow room fed self.new.state) }
    {
        let before = kept.len();
        let mut kept = kept;
        let part = first_bytes(piece, HEAD_LIMIT - before);
        kept.append(part)?;
        match read_head(alloc, &self.call, kept.as_slice())? {
            ReadHead::Whole { frame, len, lasts } => {
                self.lasts = lasts;
                self.begin(alloc, frame, &piece[len - before..])
            }
            ReadHead::More => {
                self.state = State::Head(kept);
                Ok(Fed::More)
            }
            ReadHead::Bad => Ok(Fed::Bad),
        }
    }

    /// Reads on behind a head that tells this.
    fn begin(&mut self, alloc: Global, frame: Frame, rest: &[u8]) -> Result<Fed, AllocError>
        ensures feeds { (call : Asked) (bytes : List ℕ) (len : ℕ) → self.old.call ≡ bare call
            → HeadTells call bytes rest.now frame len → LeavesOpen bytes self.old.lasts
            → IfOk result (λ fed. Feeds call bytes fed self.new) }
        ensures stands { IfOk result (λ fed. Stands fed self.new.state) }
        ensures falls { (room : ℕ) → 2 ^ 64 ≤ room
            → IfOk result (λ fed. FallsBelow room fed self.new.state) }
    {
        match frame {
            Frame::Unreadable => Ok(Fed::Bad),
            Frame::TooLong(count) => {
                let reply = Reply::TooLarge { len: count };
                let blob = Bytes::new(alloc);
                self.state = State::Told { reply, blob };
                let rest = rest.len() as u64;
                Ok(Fed::Whole { rest })
            }
            Frame::Body(now, outcome, count) => self.begin_body(alloc, now, outcome, count, rest),
        }
    }

    /// Reads on behind a head that tells a body of so many bytes.
    fn begin_body(
        &mut self,
        alloc: Global,
        now: u64,
        outcome: Outcome,
        count: u64,
        rest: &[u8],
    ) -> Result<Fed, AllocError>
        ensures feeds { (call : Asked) (bytes : List ℕ) (len : ℕ) → self.old.call ≡ bare call
            → HeadTells call bytes rest.now (Counted now outcome count) len
            → LeavesOpen bytes self.old.lasts
            → IfOk result (λ fed. Feeds call bytes fed self.new) }
        ensures stands { IfOk result (λ fed. Stands fed self.new.state) }
        ensures falls { (room : ℕ) → 2 ^ 64 ≤ room
            → IfOk result (λ fed. FallsBelow room fed self.new.state) }
    {
        match outcome {
            Outcome::Listing(dir) => {
                let lines = LayoutReader::new(alloc, dir);
                self.feed_lines(alloc, now, count, lines, rest)
            }
            // No head tells another outcome with a body.
            Outcome::Other => Ok(Fed::Bad),
            _ => self.feed_body(alloc, now, outcome, count, Bytes::new(alloc), rest),
        }
    }

    /// Takes more of a body that lists no folder.
    fn feed_body(
        &mut self,
        alloc: Global,
        now: u64,
        outcome: Outcome,
        left: u64,
        kept: Bytes,
        piece: &[u8],
    ) -> Result<Fed, AllocError>
        requires plain { HasPlainBody outcome }
        ensures feeds { (call : Asked) (bytes body : List ℕ) (len count : ℕ)
            → self.old.call ≡ bare call
            → HeadTells call bytes (body ++ piece.now) (Counted now outcome count) len
            → LeavesOpen bytes self.old.lasts → length body + left ≡ count
            → KeepsBody outcome kept body → IfOk result (λ fed. Feeds call bytes fed self.new) }
        ensures stands { IfOk result (λ fed. Stands fed self.new.state) }
        ensures falls { (room : ℕ) → left < room + length piece.now
            → IfOk result (λ fed. FallsBelow room fed self.new.state) }
    {
        let mut kept = kept;
        let came = piece.len() as u64;
        if came < left {
            keep(outcome, &mut kept, piece)?;
            let left = left - came;
            self.state = State::Body {
                now,
                outcome,
                left,
                kept,
            };
            return Ok(Fed::More);
        }
        keep(outcome, &mut kept, &piece[..left as usize])?;
        let (reply, blob) = told(alloc, now, outcome, kept);
        self.state = State::Told { reply, blob };
        Ok(Fed::Whole { rest: came - left })
    }

    /// Takes more of the body of a listing.
    fn feed_lines(
        &mut self,
        alloc: Global,
        now: u64,
        left: u64,
        lines: LayoutReader,
        piece: &[u8],
    ) -> Result<Fed, AllocError>
        ensures feeds { (call : Asked) (bytes body : List ℕ) (len count : ℕ)
            → self.old.call ≡ bare call
            → HeadTells call bytes (body ++ piece.now) (Counted now (Lists lines.dir) count) len
            → LeavesOpen bytes self.old.lasts → length body + left ≡ count
            → HasReadLayout lines body → IfOk result (λ fed. Feeds call bytes fed self.new) }
        ensures stands { IfOk result (λ fed. Stands fed self.new.state) }
        ensures falls { (room : ℕ) → left < room + length piece.now
            → IfOk result (λ fed. FallsBelow room fed self.new.state) }
    {
        let mut lines = lines;
        let came = piece.len() as u64;
        if came < left {
            lines.feed(alloc, piece)?;
            let left = left - came;
            self.state = State::Lines { now, left, lines };
            return Ok(Fed::More);
        }
        lines.feed(alloc, &piece[..left as usize])?;
        match lines.finish() {
            None => Ok(Fed::Bad),
            Some(entries) => {
                let reply = Reply::Listed(Listing { now, entries });
                let blob = Bytes::new(alloc);
                self.state = State::Told { reply, blob };
                let rest = came - left;
                Ok(Fed::Whole { rest })
            }
        }
    }
}

ghost use Rattle.std.specs.Prelude.{◌≡◌, ◌⊎◌, [], ◌∷◌, ◌++◌, ◌<◌, IfOk, OnErr, None, vec_len, vec_capacity, ℕ, Bool};
ghost use Rattle.call_log.specs.Logs.{IsHonestLog, opening_tree};
ghost use Rattle.jop_target.specs.Replies.{IsCallable, IsReplyTo, KeepsBlob};

use call_log::LogEntry;
use jop_base::{Bytes, Copied, Path};
use jop_outside::Clock;
use jop_target::{Call, MemStore, Reply};
use std::alloc::{AllocError, Global};
use std::marker::Model;

/// A store of files in memory that keeps a log of its calls. Contracts see it as its log. It begins
/// with the opening tree of its number: of 1 a target of version 1, of each other number an empty
/// one.
#[derive(Drop)]
pub struct Hall<C, const OPENING: u32> {
    clock: Box<C>,
    grain: u64,
    moment: u64,
    store: MemStore,
    log: Vec<LogEntry>,
}

impl<C, const OPENING: u32> Model for Hall<C, OPENING> {
    ghost use Rattle.std.specs.Prelude.{◌<◌, ◌≤◌, List};
    ghost use Rattle.call_log.specs.Logs.{opening_tree};
    ghost use Rattle.call_log.specs.declared.entry.LogEntry.{LogEntry};
    ghost use Rattle.hall.specs.Keeping.{KeepsLog};
    ghost use Rattle.jop_base.specs.Times.{last_time};

    ghost Value = { List LogEntry };

    ghost view = { λ h. h.log.items };

    ghost invariant = { λ h. (0 < h.grain) × (h.moment ≤ last_time)
        × KeepsLog (opening_tree OPENING) h.moment h.store.tree h.log.items };
}

/// A store with the opening tree of this number.
#[tactic(auto, unfolding(jop_base::specs::Keyed::put))]
fn opening_store(alloc: Global, number: u32) -> Result<MemStore, AllocError>
    ensures { IfOk result (λ store. store.tree ≡ opening_tree number) }
{
    let mut store = MemStore::new(alloc);
    if number == 1 {
        let content = Bytes::from_vec(b"1".to_vec(alloc)?);
        store.place(Path::OldVersion, content, 0)?;
    }
    Ok(store)
}

impl<C: Clock, const OPENING: u32> Hall<C, OPENING> {
    /// A store with its opening tree and an empty log. A call's moment is the time of the clock, in
    /// milliseconds since 1970, rounded down to a multiple of `grain`, or the moment of the call before
    /// it where that is later.
    #[tactic(auto, unfolding(call_log::specs::Logs::tree_after_log, call_log::specs::Logs::last_logged, call_log::specs::Logs::IsHonestLogFrom))]
    pub fn new(alloc: Global, clock: C, grain: u64) -> Result<Hall<C, OPENING>, AllocError>
        requires { (grain ≡ 1) ⊎ (grain ≡ 1000) }
        ensures { IfOk result (λ hall. hall ≡ []) }
    {
        let store = opening_store(alloc, OPENING)?;
        Ok(Hall {
            clock: Box::new(alloc, clock)?,
            grain,
            moment: 0,
            store,
            log: Vec::new(alloc),
        })
    }

    /// The log, which is honest.
    pub fn log(&self) -> &[LogEntry]
        ensures log { result.now ≡ self.now }
        ensures honest { IsHonestLog (opening_tree OPENING) result.now }
    {
        self.log.as_slice()
    }

    /// Makes one call for a seat, writes it down, and answers what was written. It is `Failed`, and
    /// nothing is changed but the log, where the clock fails. Out of memory nothing is changed at all.
    pub fn step(
        &mut self,
        alloc: Global,
        seat: u32,
        call: &Call,
        blob: &mut Bytes,
    ) -> Result<Reply, AllocError>
        requires { IsCallable call.now blob.old }
        ensures ok { IfOk result (λ reply. (moment : ℕ) × (landed : Bool)
            × (self.new ≡ self.old ++ record {
              moment = moment;
              seat = seat;
              call = call.now;
              reply = reply;
              landed = landed;
            } ∷ [])) }
        ensures err { OnErr result (self.new ≡ self.old) }
        ensures shape { IfOk result (λ reply. IsReplyTo call.now reply) }
        ensures blob { KeepsBlob None call.now blob.old result blob.new }
    {
        self.log.reserve(1)?;
        let written = call.copy(alloc)?;
        let Ok(time) = self.clock.now() else {
            note(
                &mut self.log,
                self.moment,
                seat,
                written,
                Reply::Failed,
                false,
            );
            return Ok(Reply::Failed);
        };
        let moment = self.moment.max(time - time % self.grain);
        let reply = self.store.answer(alloc, call, blob, moment)?;
        let answered = reply.copy(alloc)?;
        self.store.change(alloc, call, blob, moment)?;
        self.moment = moment;
        note(&mut self.log, moment, seat, written, reply, true);
        Ok(answered)
    }
}

/// Writes a call down with its reply. There is room for that.
fn note(log: &mut Vec<LogEntry>, moment: u64, seat: u32, call: Call, reply: Reply, landed: bool)
    requires { vec_len log.old < vec_capacity log.old }
    ensures { log.new.items ≡ log.old.items ++ record {
      moment = moment;
      seat = seat;
      call = call;
      reply = reply;
      landed = landed;
    } ∷ [] }
{
    let _ = log.push(LogEntry {
        moment,
        seat,
        call,
        reply,
        landed,
    });
}

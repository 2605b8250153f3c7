ghost use Rattle.std.specs.Prelude.{refl};

use crate::committing::commit;
use crate::drawing::draw_id;
use crate::outside::Outside;
use jop_base::{Bytes, Id};
use jop_outside::{Clock, Entropy, Failed, ReadErr, Sink, Source, read_to_end};
use jop_target::{Diary, Target};
use keeper::{Keeper, KeeperErr};
use local_store::{Change, Changes, Tables};
use std::alloc::Global;

/// The outside of a run, by these references: to what is the client's own, to the streams, and to the clock and the
/// random source. They have three lifetimes, since the prover follows two of any type at one lifetime, and no more.
#[derive(Drop)]
pub struct Around<'a, 'b, 'c, K: Keeper, T: Target, I: Source, O: Sink, C: Clock, N: Entropy> {
    pub keeper: &'a mut K,
    pub target: &'a mut T,
    pub diary: &'a mut Diary,
    pub made: &'a mut Changes,
    pub input: &'b mut I,
    pub out: &'b mut O,
    pub clock: &'c mut C,
    pub entropy: &'c mut N,
}

impl<'a, 'b, 'c, K: Keeper, T: Target, I: Source, O: Sink, C: Clock, N: Entropy> Outside
    for Around<'a, 'b, 'c, K, T, I, O, C, N> {
    ghost now = { λ a. record {
      line = record { trail = a.diary.now.events; target = T.state a.target.now };
      keeper = K.state a.keeper.now;
      made = a.made.now.changes;
      input = I.state a.input.now;
      out = O.state a.out.now;
      clock = C.state a.clock.now;
      entropy = N.state a.entropy.now;
    } };

    ghost place = { λ a. record {
      target = a.target.ghost_name;
      keeper = a.keeper.ghost_name;
      diary = a.diary.ghost_name;
      made = a.made.ghost_name;
      input = a.input.ghost_name;
      out = a.out.ghost_name;
      clock = a.clock.ghost_name;
      entropy = a.entropy.ghost_name;
    } };

    fn read_tables(&mut self, alloc: Global) -> Result<Tables, KeeperErr> {
        self.keeper.read(alloc)
    }

    fn commit(&mut self, alloc: Global, change: Change) -> Result<(), KeeperErr> {
        commit(
            alloc,
            &mut *self.keeper,
            &mut *self.diary,
            &mut *self.made,
            change,
        )
    }

    fn save_blob(&mut self, alloc: Global, id: &Id, bytes: &Bytes) -> Result<(), KeeperErr> {
        self.keeper.save_blob(alloc, id, bytes)
    }

    fn read_input(&mut self, alloc: Global, limit: usize) -> Result<Bytes, ReadErr> {
        read_to_end(alloc, &mut *self.input, limit)
    }

    fn time(&mut self) -> Result<u64, Failed> {
        self.clock.now()
    }

    fn draw_id(&mut self) -> Result<Id, Failed> {
        draw_id(&mut *self.entropy)
    }
}

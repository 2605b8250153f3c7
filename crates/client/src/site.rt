ghost use Rattle.std.proofs.Common.{◌∙◌, ap};
ghost use Rattle.std.specs.Prelude.{refl, ◌≡◌};

use crate::applying::apply_last;
use crate::client::Client;
use crate::committing::commit_in;
use jop_base::{Bytes, Id};
use jop_target::{Call, Diary, Event, Line, Reply, Target, TargetLine};
use keeper::{Keeper, KeeperErr};
use local_store::{Change, Changes, Tables};
use std::alloc::{AllocError, Global};

/// A client at work on a target and a keeper. Its tables are the keeper's, read once.
#[derive(Drop)]
pub struct Site<'a, T: Target, K: Keeper> {
    pub target: &'a mut T,
    pub keeper: &'a mut K,
    pub tables: &'a mut Tables,
    pub diary: &'a mut Diary,
    pub made: &'a mut Changes,
}

impl<'a, T: Target, K: Keeper> Line for Site<'a, T, K> {
    ghost state = { λ s. record { trail = s.diary.now.events; target = T.state s.target.now } };

    // Keeper, tables and changes are as before, and it stays the site of this target and this diary.
    ghost keeps = { λ a b.
        (b.tables ≡ a.tables) × (b.keeper ≡ a.keeper) × (b.made ≡ a.made)
        × (b.target.ghost_name ≡ a.target.ghost_name)
        × (b.diary.ghost_name ≡ a.diary.ghost_name) };

    ghost keeps_same = { λ a. (refl, refl, refl, refl, refl) };

    ghost keeps_on = { λ a b c h k.
        (k.0 ∙ h.0, k.1 ∙ h.1, k.2 ∙ h.2, k.3 ∙ h.3, k.4 ∙ h.4) };

    fn call(&mut self, alloc: Global, call: Call, blob: &mut Bytes) -> Result<(), AllocError> {
        let mut line = TargetLine {
            target: &mut *self.target,
            diary: &mut *self.diary,
        };
        line.call(alloc, call, blob)
    }

    fn last(&self) -> &Reply {
        match self.diary.events().last() {
            Some(Event::Called(_, reply)) => reply,
            _ => unreachable!(),
        }
    }

    fn heard(&self) -> u64 {
        self.diary.heard()
    }
}

impl<'a, T: Target, K: Keeper> Client for Site<'a, T, K> {
    ghost site = { λ s. record {
      line = record { trail = s.diary.now.events; target = T.state s.target.now };
      keeper = K.state s.keeper.now;
      tables = s.tables.now;
      made = s.made.now.changes;
    } };

    ghost place = { λ s. record {
      target = s.target.ghost_name;
      keeper = s.keeper.ghost_name;
      tables = s.tables.ghost_name;
      diary = s.diary.ghost_name;
      made = s.made.ghost_name;
    } };

    ghost same_line = { λ a. refl };

    ghost keeps_site = { λ a b h. record {
      keeper = ap (λ k. K.state k.now) h.1;
      tables = ap (λ t. t.now) h.0;
      made = ap (λ m. m.now.changes) h.2;
    } };

    ghost keeps_place = { λ a b h. λ i. record {
      target = h.3 i;
      keeper = ap (λ k. k.ghost_name) h.1 i;
      tables = ap (λ t. t.ghost_name) h.0 i;
      diary = h.4 i;
      made = ap (λ m. m.ghost_name) h.2 i;
    } };

    fn tables(&self) -> &Tables {
        self.tables
    }

    fn begin(&mut self) -> Result<(), AllocError> {
        self.diary.begin()
    }

    fn end(&mut self) -> Result<(), AllocError> {
        self.diary.end()
    }

    fn commit(&mut self, alloc: Global, change: Change) -> Result<(), KeeperErr> {
        commit_in(
            alloc,
            &mut *self.keeper,
            &*self.tables,
            &mut *self.diary,
            &mut *self.made,
            change,
        )?;
        apply_last(alloc, &mut *self.tables, &*self.made)?;
        Ok(())
    }

    fn load_blob(&mut self, alloc: Global, id: &Id) -> Result<Option<Bytes>, KeeperErr> {
        self.keeper.load_blob(alloc, id)
    }

    fn save_blob(&mut self, alloc: Global, id: &Id, bytes: &Bytes) -> Result<(), KeeperErr> {
        self.keeper.save_blob(alloc, id, bytes)
    }
}

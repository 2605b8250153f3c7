use crate::agreeing::has_same_blob;
use crate::file::{opened, remove};
use crate::trouble::Trouble;
use crate::work::Work;
use jop_base::{Bytes, Id};
use jop_outside::Draw;
use keeper::KeeperErr;
use keeper_records::RecordStore;
use keeper_sqlite::SqliteRecords;
use std::alloc::{AllocError, Global};
use std::test::Fail;

/// The bytes of a blob.
fn drawn_bytes(alloc: Global, draw: &mut Draw, count: u64) -> Result<Bytes, AllocError> {
    let mut bytes = Bytes::new(alloc);
    for _ in 0..count {
        bytes.push((draw.next() % 256) as u8)?;
    }
    Ok(bytes)
}

impl Work {
    /// Saves the blob of a turn in both.
    fn save(&mut self, rt: &HostRuntime, turn: u64) -> Result<(), Trouble> {
        let id = self.source.one_of();
        let bytes = drawn_bytes(rt.alloc(), &mut self.source.draw, turn % 10 * 1_000)?;
        self.memory.save_blob(rt.alloc(), &id, &bytes)?;
        let mut file = opened(rt, &self.path)?;
        Ok(file.save_blob(rt.alloc(), &id, &bytes)?)
    }

    /// The first of the ids whose blob is another one in the file.
    fn other(&mut self, alloc: Global, file: &mut SqliteRecords) -> Result<Option<Id>, KeeperErr> {
        for id in self.source.ids {
            if !has_same_blob(alloc, &mut self.memory, file, &id)? {
                return Ok(Some(id));
            }
        }
        Ok(None)
    }

    /// Whether both have the same blobs, once that of a turn was saved.
    fn saves_alike(&mut self, rt: &HostRuntime, turn: u64) -> Result<bool, Trouble> {
        self.save(rt, turn)?;
        let mut file = opened(rt, &self.path)?;
        Ok(self.other(rt.alloc(), &mut file)? == None)
    }

    /// How many turns leave the same blobs, until one doesn't.
    fn count_saved_alike(&mut self, rt: &HostRuntime, turns: u64) -> Result<u64, Trouble> {
        for turn in 0..turns {
            if !self.saves_alike(rt, turn)? {
                return Ok(turn);
            }
        }
        Ok(turns)
    }
}

fn count_saved_alike(rt: &HostRuntime) -> Result<u64, Trouble> {
    let mut work = Work::new(rt, 6)?;
    work.count_saved_alike(rt, 10)
}

#[test]
fn ten_blobs_are_saved_and_replaced_alike(rt: HostRuntime) -> Result<(), Fail> {
    assert_eq!(rt; count_saved_alike(&rt)?, 10);
    Ok(remove(&rt)?)
}

use crate::agreeing::are_same;
use crate::file::{opened, remove};
use crate::trouble::Trouble;
use crate::work::Work;
use keeper_records::RecordStore;
use keeper_sqlite::SqliteRecords;
use std::alloc::Global;
use std::test::Fail;

impl Work {
    /// Whether both stores answer the write of a turn alike.
    fn is_answered(
        &mut self,
        alloc: Global,
        file: &mut SqliteRecords,
        turn: u64,
    ) -> Result<bool, Trouble> {
        let writes = self.source.writes(alloc, turn)?;
        let wanted = self.memory.write(alloc, &writes);
        Ok(file.write(alloc, &writes) == wanted)
    }

    /// Whether both stores have the same, and answer the write of a turn alike.
    fn is_alike(
        &mut self,
        alloc: Global,
        file: &mut SqliteRecords,
        turn: u64,
    ) -> Result<bool, Trouble> {
        let id = self.source.one_of();
        Ok(are_same(alloc, &mut self.memory, file, &id)? && self.is_answered(alloc, file, turn)?)
    }

    /// The same, with the file opened anew.
    fn is_alike_anew(&mut self, rt: &HostRuntime, turn: u64) -> Result<bool, Trouble> {
        let mut file = opened(rt, &self.path)?;
        self.is_alike(rt.alloc(), &mut file, turn)
    }

    /// How many turns go alike, until one doesn't.
    fn count_alike(&mut self, rt: &HostRuntime, turns: u64) -> Result<u64, Trouble> {
        for turn in 0..turns {
            if !self.is_alike_anew(rt, turn)? {
                return Ok(turn);
            }
        }
        Ok(turns)
    }
}

fn count_alike(rt: &HostRuntime) -> Result<u64, Trouble> {
    let mut work = Work::new(rt, 5)?;
    work.count_alike(rt, 301)
}

#[test]
fn three_hundred_writes_come_to_the_same_tables(rt: HostRuntime) -> Result<(), Fail> {
    assert_eq!(rt; count_alike(&rt)?, 301);
    Ok(remove(&rt)?)
}

ghost use Rattle.std.specs.Prelude.{All, IfOk};
ghost use Rattle.keeper_records.specs.Writes.{IsSoundWrite};

use crate::file::{clear, opened, path, remove};
use crate::made::{add, note};
use crate::thing::Thing;
use crate::trouble::Trouble;
use jop_base::{Seq, Text};
use keeper::KeeperErr;
use keeper_records::{MemRecords, RecordStore, Write};
use std::alloc::Global;
use std::test::Fail;

/// The numbers of two conflict notes, what is answered to their writes, and how many notes there
/// are then.
#[derive(Clone, Copy)]
struct Case {
    first: u64,
    second: u64,
    answer: Result<(), KeeperErr>,
    count: usize,
}

/// 2^63 is past the end, and each number is one note's.
const CASES: [Case; 4] = [
    Case {
        first: 1,
        second: 9_223_372_036_854_775_808,
        answer: Err(KeeperErr::Fault),
        count: 0,
    },
    Case {
        first: 7,
        second: 7,
        answer: Err(KeeperErr::Fault),
        count: 0,
    },
    Case {
        first: 7,
        second: 9_223_372_036_854_775_807,
        answer: Ok(()),
        count: 2,
    },
    Case {
        first: 8,
        second: 7,
        answer: Err(KeeperErr::Fault),
        count: 2,
    },
];

fn add_note(alloc: Global, writes: &mut Seq<Write>, number: u64) -> Result<(), Trouble>
    requires { All IsSoundWrite writes.old }
    ensures { All IsSoundWrite writes.new }
{
    let note = note(alloc, number, Thing::Note.id(), "a body")?;
    Ok(add(writes, Write::AddConflict(note))?)
}

impl Case {
    fn writes(&self, alloc: Global) -> Result<Seq<Write>, Trouble>
        ensures { IfOk result (λ writes. All IsSoundWrite writes) }
    {
        let mut writes = Seq::new(alloc);
        add_note(alloc, &mut writes, self.first)?;
        add_note(alloc, &mut writes, self.second)?;
        Ok(writes)
    }

    /// Whether a store answers as it should.
    fn is_met<S: RecordStore>(&self, alloc: Global, store: &mut S) -> Result<bool, Trouble> {
        let writes = self.writes(alloc)?;
        let answer = store.write(alloc, &writes);
        Ok(answer == self.answer && note_count(alloc, store)? == self.count)
    }

    fn is_met_by_file(&self, rt: &HostRuntime, path: &Text) -> Result<bool, Trouble> {
        let mut file = opened(rt, path)?;
        self.is_met(rt.alloc(), &mut file)
    }

    fn is_met_by_both(
        &self,
        rt: &HostRuntime,
        path: &Text,
        memory: &mut MemRecords,
    ) -> Result<bool, Trouble> {
        Ok(self.is_met(rt.alloc(), memory)? && self.is_met_by_file(rt, path)?)
    }
}

/// How many of the cases are met, until one isn't.
fn count_met(rt: &HostRuntime, path: &Text, memory: &mut MemRecords) -> Result<usize, Trouble> {
    for (count, case) in CASES.into_iter().enumerate() {
        if !case.is_met_by_both(rt, path, memory)? {
            return Ok(count);
        }
    }
    Ok(CASES.len())
}

/// How many a new file and a new store in memory meet.
fn count_met_anew(rt: &HostRuntime) -> Result<usize, Trouble> {
    let path = path(rt)?;
    let mut memory = MemRecords::new(rt.alloc());
    count_met(rt, &path, &mut memory)
}

fn note_count<S: RecordStore>(alloc: Global, store: &mut S) -> Result<usize, KeeperErr> {
    let tables = store.all(alloc)?;
    Ok(tables.conflicts.len())
}

#[test]
fn a_number_that_does_not_fit_is_a_fault(rt: HostRuntime) -> Result<(), Fail> {
    clear(&rt)?;
    assert_eq!(rt; count_met_anew(&rt)?, 4);
    Ok(remove(&rt)?)
}

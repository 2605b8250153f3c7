use crate::alone::Alone;
use crate::locks::{ONE, TWO, lock_name};
use crate::machine::source_of;
use jop_base::{Bytes, LockKind, Path};
use jop_status::Status;
use jop_target::Event;
use lease::Seen;
use std::alloc::{AllocError, Global};
use std::test::Fail;

/// A lock of 1000, of this kind and client.
type Standing = (LockKind, &'static str);

/// A check of a target, and what is to come of it.
#[derive(Clone, Copy)]
struct Check {
    what: &'static str,
    /// What stands there before.
    lock: Option<Standing>,
    /// The moment of its first call, and how far each call is behind the last.
    first: u64,
    step: u64,
    /// The call that fails, if one does.
    fails: Option<u64>,
    /// Its words, no input, its exit status and its text, with `|` between each two.
    due: &'static str,
    /// What it calls, an event a line.
    trail: &'static str,
    /// How many files stand there then.
    left: usize,
}

const CHECKS: [Check; 7] = [
    Check {
        what: "takes a lock, lists again and releases it",
        lock: None,
        first: 0,
        step: 1,
        fails: None,
        due: "check mem: 11111111111111111111111111111111||0|free~",
        trail: "\
began
make locks/: done at 0
list locks/: listed at 1
put locks/1_3_11111111111111111111111111111111.json, 71 bytes: done at 2
list locks/: listed at 3, locks/1_3_11111111111111111111111111111111.json of 2
delete locks/1_3_11111111111111111111111111111111.json: done at 4
ended
",
        left: 0,
    },
    Check {
        what: "names the live lock in the way",
        lock: Some((LockKind::Exclusive, TWO)),
        first: 180_998,
        step: 1,
        fails: None,
        due: "check mem: 11111111111111111111111111111111||3|\
            busy 2_3_22222222222222222222222222222222.json 1000~",
        trail: "\
began
make locks/: done at 180998
list locks/: listed at 180999, locks/2_3_22222222222222222222222222222222.json of 1000
ended
",
        left: 1,
    },
    Check {
        what: "passes by a lock at the end of its life",
        lock: Some((LockKind::Exclusive, TWO)),
        first: 180_999,
        step: 1,
        fails: None,
        due: "check mem: 11111111111111111111111111111111||0|free~",
        trail: "\
began
make locks/: done at 180999
list locks/: listed at 181000, locks/2_3_22222222222222222222222222222222.json of 1000
put locks/1_3_11111111111111111111111111111111.json, 71 bytes: done at 181001
list locks/: listed at 181002, locks/1_3_11111111111111111111111111111111.json of 181001, \
locks/2_3_22222222222222222222222222222222.json of 1000
delete locks/1_3_11111111111111111111111111111111.json: done at 181003
ended
",
        left: 1,
    },
    Check {
        what: "overwrites its own leftover",
        lock: Some((LockKind::Sync, ONE)),
        first: 1500,
        step: 1,
        fails: None,
        due: "check mem: 11111111111111111111111111111111||0|free~",
        trail: "\
began
make locks/: done at 1500
list locks/: listed at 1501, locks/1_3_11111111111111111111111111111111.json of 1000
put locks/1_3_11111111111111111111111111111111.json, 71 bytes: done at 1502
list locks/: listed at 1503, locks/1_3_11111111111111111111111111111111.json of 1502
delete locks/1_3_11111111111111111111111111111111.json: done at 1504
ended
",
        left: 0,
    },
    Check {
        what: "calls nothing more after a failed call",
        lock: None,
        first: 0,
        step: 1,
        fails: Some(3),
        due: "check mem: 11111111111111111111111111111111||9|target fault~",
        trail: "\
began
make locks/: done at 0
list locks/: listed at 1
put locks/1_3_11111111111111111111111111111111.json, 71 bytes: failed
ended
",
        left: 1,
    },
    Check {
        what: "loses a lease that is shown too late",
        lock: None,
        first: 0,
        step: 60_000,
        fails: None,
        due: "check mem: 11111111111111111111111111111111||4|lease lost~",
        trail: "\
began
make locks/: done at 0
list locks/: listed at 60000
put locks/1_3_11111111111111111111111111111111.json, 71 bytes: done at 120000
list locks/: listed at 180000, locks/1_3_11111111111111111111111111111111.json of 120000
delete locks/1_3_11111111111111111111111111111111.json: done at 240000
ended
",
        left: 0,
    },
    Check {
        what: "keeps a lease that is shown in time",
        lock: None,
        first: 0,
        step: 59_999,
        fails: None,
        due: "check mem: 11111111111111111111111111111111||0|free~",
        trail: "\
began
make locks/: done at 0
list locks/: listed at 59999
put locks/1_3_11111111111111111111111111111111.json, 71 bytes: done at 119998
list locks/: listed at 179997, locks/1_3_11111111111111111111111111111111.json of 119998
delete locks/1_3_11111111111111111111111111111111.json: done at 239996
ended
",
        left: 0,
    },
];

/// The file of a lock.
fn path_of(lock: Standing) -> Result<Path, Fail> {
    let (kind, client) = lock;
    Ok(Path::Lock(lock_name(kind, client)?))
}

/// The events of a trail, one a line.
fn trail_text(alloc: Global, events: &[Event]) -> Result<String, AllocError> {
    let mut text = String::new(alloc);
    for event in events {
        text.push_str(format!(in alloc; "{event}\n")?.as_str())?;
    }
    Ok(text)
}

impl Alone {
    /// Whether the last command called this, an event a line.
    fn has_called(&self, alloc: Global, trail: &str) -> Result<bool, AllocError> {
        Ok(trail_text(alloc, self.client.diary.events())?.as_str() == trail)
    }

    fn place(&mut self, alloc: Global, lock: Option<Standing>) -> Result<(), Fail> {
        if let Some(lock) = lock {
            self.target.place(path_of(lock)?, Bytes::new(alloc), 1000)?;
        }
        Ok(())
    }

    fn fail(&mut self, nth: Option<u64>) -> Result<(), AllocError> {
        match nth {
            Some(nth) => self.target.fail(nth, true),
            None => Ok(()),
        }
    }

    fn comes_to(&mut self, alloc: Global, check: &Check) -> Result<bool, Fail> {
        self.place(alloc, check.lock)?;
        self.fail(check.fails)?;
        let came = self.comes_out(alloc, check.due)?;
        let called = self.has_called(alloc, check.trail)?;
        Ok(came && called && self.target.tree().files.len() == check.left)
    }
}

fn comes_to(alloc: Global, check: &Check) -> Result<bool, Fail> {
    let mut alone = Alone::new(alloc, check.first, check.step)?;
    alone.comes_to(alloc, check)
}

#[test]
fn a_check_comes_to_what_stands_there(rt: HostRuntime) -> Result<(), Fail> {
    for check in &CHECKS {
        assert!(rt; comes_to(rt.alloc(), check)?, "{}", check.what);
    }
    Ok(())
}

const CHECK: &str = "check mem: 11111111111111111111111111111111";

impl Alone {
    fn check(&mut self, alloc: Global) -> Result<(), AllocError> {
        let mut input = source_of(alloc, b"")?;
        self.client.read(alloc, &mut self.target, CHECK, &mut input)
    }

    /// Whether its lease was lost as a listing of 180,000 shows it.
    fn has_lost(&self) -> bool {
        let seen = Seen {
            own: Some(120_000),
            now: 180_000,
            old_end: None,
        };
        self.client.status == Status::LeaseLost(seen)
    }

    /// Whether a check, of which the first write to standard output fails, tells so, and leaves no lock.
    fn is_unheard(&mut self, alloc: Global) -> Result<bool, AllocError> {
        self.client.out.fail(1)?;
        self.check(alloc)?;
        Ok(
            self.client.status == Status::SinkFault
                && self.has_told(b"output fault\n")
                && self.target.tree().files.is_empty(),
        )
    }
}

fn loses_its_lease(alloc: Global) -> Result<bool, AllocError> {
    let mut alone = Alone::new(alloc, 0, 60_000)?;
    alone.check(alloc)?;
    Ok(alone.has_lost())
}

#[test]
fn a_lost_lease_tells_what_was_seen(rt: HostRuntime) -> Result<(), Fail> {
    assert!(rt; loses_its_lease(rt.alloc())?);
    Ok(())
}

fn tells_its_output_failed(alloc: Global) -> Result<bool, AllocError> {
    let mut alone = Alone::new(alloc, 0, 1)?;
    alone.is_unheard(alloc)
}

#[test]
fn a_failed_write_is_told_after_the_release(rt: HostRuntime) -> Result<(), Fail> {
    assert!(rt; tells_its_output_failed(rt.alloc())?);
    Ok(())
}

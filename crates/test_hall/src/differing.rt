use crate::deeds::{Deed, content, make_all};
use call_log::{CloseErr, LogEntry, Mismatch, close_log};
use jop_base::Path;
use jop_target::{Diary, Event, MemTarget, Reply};
use std::alloc::{AllocError, Global};
use std::test::Fail;

/// The log of each case: of two seats, which all make their calls at moment 0.
const LOG: [(u32, Deed); 4] = [
    (1, Deed::Make),
    (2, Deed::Put),
    (1, Deed::Get),
    (2, Deed::Get),
];

/// The trails of the seats from 1 on, and what closing the log over them comes to.
#[derive(Clone, Copy)]
struct Case {
    trails: &'static [&'static [Deed]],
    comes_to: &'static str,
}

const CASES: [Case; 6] = [
    Case {
        trails: &[&[Deed::Make, Deed::Get], &[Deed::Put, Deed::Get]],
        comes_to: "agrees",
    },
    // A trail lacks a put.
    Case {
        trails: &[&[Deed::Make, Deed::Get], &[Deed::Get]],
        comes_to: "2 | put info.json, 1 bytes: done at 0 | get info.json: got 1 bytes at 0",
    },
    // There is no trail of the last seat.
    Case {
        trails: &[&[Deed::Make, Deed::Get]],
        comes_to: "2 | put info.json, 1 bytes: done at 0 | none",
    },
    // A trail ends too soon.
    Case {
        trails: &[&[Deed::Make, Deed::Get], &[Deed::Put]],
        comes_to: "2 | get info.json: got 1 bytes at 0 | none",
    },
    // A trail has a call that no seat made.
    Case {
        trails: &[
            &[Deed::Make, Deed::Get],
            &[Deed::Put, Deed::Get],
            &[Deed::Make],
        ],
        comes_to: "3 | none | make locks/: done at 0",
    },
    // Two trails are changed for each other.
    Case {
        trails: &[&[Deed::Put, Deed::Get], &[Deed::Make, Deed::Get]],
        comes_to: "1 | make locks/: done at 0 | put info.json, 1 bytes: done at 0",
    },
];

fn reply_of(alloc: Global, deed: Deed) -> Result<Reply, AllocError> {
    match deed {
        Deed::Make | Deed::Put => Ok(Reply::Done { now: 0 }),
        Deed::Get => Ok(Reply::Got {
            now: 0,
            content: content(alloc)?,
        }),
    }
}

fn log_of(alloc: Global, entries: &[(u32, Deed)]) -> Result<Vec<LogEntry>, AllocError> {
    let mut log = Vec::new(alloc);
    for (seat, deed) in entries {
        log.push(LogEntry {
            moment: 0,
            seat: *seat,
            call: deed.call(alloc)?,
            reply: reply_of(alloc, *deed)?,
            landed: true,
        })?;
    }
    Ok(log)
}

/// The trail of these calls in one session, at a target that has an info.
fn trail_of(alloc: Global, deeds: &[Deed]) -> Result<Diary, AllocError> {
    let mut target = MemTarget::new(alloc, 0, 0);
    target.place(Path::Info, content(alloc)?, 0)?;
    let mut diary = Diary::new(alloc);
    diary.begin()?;
    make_all(alloc, &mut target, deeds, &mut diary)?;
    diary.end()?;
    Ok(diary)
}

fn trails_of(alloc: Global, all: &[&[Deed]]) -> Result<Vec<Diary>, AllocError> {
    let mut trails = Vec::new(alloc);
    for deeds in all {
        trails.push(trail_of(alloc, deeds)?)?;
    }
    Ok(trails)
}

fn event_text(alloc: Global, event: &Option<Event>) -> Result<String, AllocError> {
    match event {
        Some(event) => format!(in alloc; "{event}"),
        None => String::from_str(alloc, "none"),
    }
}

fn mismatch_text(alloc: Global, m: &Mismatch) -> Result<String, AllocError> {
    let seat = m.seat;
    let logged = event_text(alloc, &m.logged)?;
    let told = event_text(alloc, &m.told)?;
    format!(in alloc; "{seat} | {logged} | {told}")
}

/// What closing comes to, in words.
fn closed(alloc: Global, log: &[LogEntry], trails: &[Diary]) -> Result<String, AllocError> {
    if trails.len() > 9 {
        return String::from_str(alloc, "too many");
    }
    match close_log(alloc, log, trails) {
        Ok(()) => String::from_str(alloc, "agrees"),
        Err(CloseErr::NoMemory) => String::from_str(alloc, "no memory"),
        Err(CloseErr::Mismatch(m)) => mismatch_text(alloc, &m),
    }
}

impl Case {
    /// Fails with what closing comes to, if it is something else.
    fn play(&self, alloc: Global) -> Result<(), Fail> {
        let log = log_of(alloc, &LOG)?;
        let trails = trails_of(alloc, self.trails)?;
        let said = closed(alloc, log.as_slice(), trails.as_slice())?;
        if said.as_str() == self.comes_to {
            Ok(())
        } else {
            Err(Fail::new(format_args!("came to {:?}", said.as_str())))
        }
    }
}

#[test]
fn the_first_difference_is_told(rt: HostRuntime) -> Result<(), Fail> {
    for case in &CASES {
        case.play(rt.alloc())?;
    }
    Ok(())
}

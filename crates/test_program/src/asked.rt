ghost use Rattle.std.specs.Prelude.{◌≡◌, Some};

use crate::due::{Due, cut, read_due};
use crate::machine::words_of;
use crate::place::{around, is_met};
use jop_start::{Opener, StartErr, Work};
use jop_target::MemTarget;
use jop_words::{Profile, TargetKind};
use keeper_records::MemKeeper;
use std::alloc::{AllocError, Global};
use std::test::Fail;

/// Opens tables and a target in memory, which stay from run to run. It knows what it was asked for last, and how often
/// it was asked.
struct MemOpener {
    keeper: MemKeeper,
    target: MemTarget,
    profile: Profile,
    kind: TargetKind,
    times: usize,
}

// Written out, as that of a client is.
impl Drop for MemOpener {
    fn drop(self) {
        let MemOpener {
            keeper: _,
            target: _,
            profile: _,
            kind: _,
            times: _,
        } = self;
    }
}

/// It says all that it does: what it lends is what it has, and it has that back.
impl Opener for MemOpener {
    ghost opens = { λ old new profile kind first last.
        (new.profile ≡ profile) × (new.kind ≡ kind)
        × (first ≡ record {
          keeper = record { kept = Some old.keeper.store.kept; faults = old.keeper.store.faults };
          target = record { store = Some old.target.store; faults = old.target.faults };
        })
        × (last ≡ record {
          keeper = record { kept = Some new.keeper.store.kept; faults = new.keeper.store.faults };
          target = record { store = Some new.target.store; faults = new.target.faults };
        }) };

    fn open<W: Work>(
        &mut self,
        alloc: Global,
        profile: Profile,
        kind: TargetKind,
        work: &mut W,
    ) -> Result<u8, StartErr> {
        self.profile = profile;
        self.kind = kind;
        self.times = self.times.saturating_add(1);
        Ok(work.done(alloc, &mut self.keeper, &mut self.target))
    }
}

/// Whether these are the tables that are meant: a file by its path, or `-`.
fn is_profile(profile: &Profile, due: &str) -> bool {
    match profile {
        Profile::Memory => due == "-",
        Profile::File(path) => path.as_str() == due,
    }
}

/// Whether a word is this prefix and this text.
fn is_word(due: &str, prefix: &str, text: &str) -> bool {
    match due.strip_prefix(prefix) {
        Some(rest) => rest == text,
        None => false,
    }
}

fn is_kind(kind: &TargetKind, due: &str) -> bool {
    match kind {
        TargetKind::Mem => due == "mem:",
        TargetKind::Dir(path) => is_word(due, "dir:", path.as_str()),
        TargetKind::Dav(address) => is_word(due, "dav:", address.as_str()),
        TargetKind::WebDav(site) => is_word(due, "webdav:", site.path.as_str()),
    }
}

impl MemOpener {
    fn new(alloc: Global) -> MemOpener {
        MemOpener {
            keeper: MemKeeper::new(alloc),
            target: MemTarget::new(alloc, 0, 1),
            profile: Profile::Memory,
            kind: TargetKind::Mem,
            times: 0,
        }
    }

    /// Whether a command comes out as it is to. Its first random byte is this one.
    fn comes_out(&mut self, alloc: Global, due: &Due, first: u8) -> Result<bool, AllocError> {
        let words = words_of(alloc, due.words)?;
        let mut around = around(alloc, due.input, first)?;
        Ok(is_met(alloc, &words, self, &mut around, due))
    }

    /// The first of these commands that comes out otherwise, counted from 0. The random bytes of each
    /// begin where 16 of the last one end.
    fn first_surprise(&mut self, alloc: Global, lines: &str) -> Result<Option<usize>, AllocError> {
        let mut first: u8 = 0;
        for (number, line) in lines.lines().enumerate() {
            if !self.comes_out(alloc, &read_due(line), first)? {
                return Ok(Some(number));
            }
            first = first.saturating_add(16);
        }
        Ok(None)
    }

    /// Whether a command asks for that: its words, the tables, and the target.
    fn is_asked(&mut self, alloc: Global, line: &str) -> Result<bool, AllocError> {
        let (words, rest) = cut(line);
        let (profile, kind) = cut(rest);
        self.comes_out(alloc, &read_due(words), 0)?;
        Ok(is_profile(&self.profile, profile) && is_kind(&self.kind, kind))
    }

    /// The first of these commands that asks for something else, or not once, counted from 0.
    fn first_other(&mut self, alloc: Global, lines: &str) -> Result<Option<usize>, AllocError> {
        for (number, line) in lines.lines().enumerate() {
            if !self.is_asked(alloc, line)? || self.times != number + 1 {
                return Ok(Some(number));
            }
        }
        Ok(None)
    }
}

/// What is made in one run is there in the next.
const DAY: &str = "\
--profile one upgrade dir:two||0|version 3~
--profile one mkbook Home||0|101112131415161718191a1b1c1d1e1f~
--profile one sync dir:two||0|put 1~removed 0~taken 0~gone 0~conflicts 0~bad 0~locked 0~
--profile one ls||0|101112131415161718191a1b1c1d1e1f Home~
--profile one sync dir:two||0|put 0~removed 0~taken 0~gone 0~conflicts 0~bad 0~locked 0~
";

/// A line a command: its words, and the tables and the target that it asks for.
const ASKED: &str = "\
ls|jop.sqlite|mem:
--profile one ls|one|mem:
--profile :memory: ls|-|mem:
sync dir:two|jop.sqlite|dir:two
--profile one sync dir:two|one|dir:two
upgrade dav:http://host:81/|jop.sqlite|dav:host:81
upgrade webdav:http://ann@localhost:81/dav|jop.sqlite|webdav:/dav/
--profile one check dir:two 000102030405060708090a0b0c0d0e0f|-|dir:two
--profile one tidy|-|mem:
sync two|-|mem:
";

fn day(alloc: Global) -> Result<Option<usize>, AllocError> {
    let mut opener = MemOpener::new(alloc);
    opener.first_surprise(alloc, DAY)
}

fn asked(alloc: Global) -> Result<Option<usize>, AllocError> {
    let mut opener = MemOpener::new(alloc);
    opener.first_other(alloc, ASKED)
}

#[test]
fn what_is_opened_keeps_what_is_done(rt: HostRuntime) -> Result<(), Fail> {
    assert!(rt; day(rt.alloc())?.is_none());
    Ok(())
}

#[test]
fn a_run_asks_for_what_its_words_name(rt: HostRuntime) -> Result<(), Fail> {
    assert!(rt; asked(rt.alloc())?.is_none());
    Ok(())
}

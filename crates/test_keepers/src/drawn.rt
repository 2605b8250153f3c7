//! Writes that are drawn, the same for the same seed.

ghost use Rattle.std.specs.Prelude.{All, IfOk};
ghost use Rattle.keeper_records.specs.Writes.{IsSoundWrite};

use crate::made::{Parts, add, info, note, row};
use crate::thing::repeated;
use crate::trouble::Trouble;
use jop_base::{Context, Id, Seq, Text};
use jop_outside::Draw;
use keeper_records::Write;
use local_store::Deletion;
use std::alloc::{AllocError, Global};

/// A generator with the eight ids that it drew first.
#[derive(Clone, Copy)]
pub(crate) struct Source {
    pub draw: Draw,
    pub ids: [Id; 8],
}

/// What a write is about.
#[derive(Clone, Copy)]
struct Subject<'a> {
    id: Id,
    flag: bool,
    body: &'a str,
}

/// Four digits more.
fn add_digits(alloc: Global, digits: &mut Text, number: u64) -> Result<(), AllocError> {
    let four = format!(in alloc; "{number:04x}")?;
    digits.append(four.as_str())
}

/// An id of eight draws.
fn id(alloc: Global, draw: &mut Draw) -> Result<Id, Trouble> {
    let mut digits = Text::new(alloc);
    for _ in 0..8 {
        add_digits(alloc, &mut digits, draw.next() % 65_536)?;
    }
    Id::read(digits.as_slice()).ok_or(Trouble::NotRead)
}

/// One word more.
fn add_word(alloc: Global, text: &mut Text, number: u64) -> Result<(), AllocError> {
    let word = format!(in alloc; "w{number} ")?;
    text.append(word.as_str())
}

/// Up to forty words.
fn body(alloc: Global, draw: &mut Draw) -> Result<Text, AllocError> {
    let mut body = Text::new(alloc);
    for _ in 0..draw.next() % 40 + 1 {
        add_word(alloc, &mut body, draw.next() % 1000)?;
    }
    body.push('.')?;
    Ok(body)
}

impl Source {
    pub(crate) fn new(alloc: Global, seed: u64) -> Result<Source, Trouble> {
        let mut draw = Draw { state: seed };
        let mut ids = [repeated(b'0'); 8];
        for place in ids.iter_mut() {
            *place = id(alloc, &mut draw)?;
        }
        Ok(Source { draw, ids })
    }

    /// One of the ids.
    pub(crate) fn one_of(&mut self) -> Id {
        let place = self.draw.next() % 8;
        self.ids[place as usize]
    }

    fn flag(&mut self) -> bool {
        self.draw.next() % 2 == 1
    }

    fn row(&mut self, alloc: Global, subject: &Subject) -> Result<Write, Trouble>
        ensures { IfOk result (λ write. IsSoundWrite write) }
    {
        let synced = self.flag();
        let parts = Parts {
            id: subject.id,
            kind: 1,
            body: subject.body,
            sealed: subject.flag,
        };
        let row = row(alloc, &parts, synced)?;
        Ok(Write::SetRow(row))
    }

    fn conflict(alloc: Global, number: u64, subject: &Subject) -> Result<Write, Trouble>
        ensures { IfOk result (λ write. IsSoundWrite write) }
    {
        let note = note(alloc, number, subject.id, subject.body)?;
        Ok(Write::AddConflict(note))
    }

    fn context(&mut self, alloc: Global) -> Result<Write, Trouble>
        ensures { IfOk result (λ write. IsSoundWrite write) }
    {
        let mut seen = Seq::new(alloc);
        for _ in 0..self.draw.next() % 3 {
            seen.push(self.one_of())?;
        }
        let moment = self.draw.next();
        Ok(Write::SetContext(Context { moment, seen }))
    }

    fn info(&mut self, alloc: Global) -> Result<Write, Trouble>
        ensures { IfOk result (λ write. IsSoundWrite write) }
    {
        let info = info(alloc, self.draw.next() % 4)?;
        Ok(Write::SetInfo(info))
    }

    /// A write of the kind of this turn. A conflict note has the number of the turn.
    fn write(&mut self, alloc: Global, turn: u64, subject: &Subject) -> Result<Write, Trouble>
        ensures { IfOk result (λ write. IsSoundWrite write) }
    {
        let Subject { id, flag, body: _ } = *subject;
        match turn % 10 {
            0 => self.row(alloc, subject),
            1 => Ok(Write::DropRow(id)),
            2 => Ok(Write::SetDeletion(Deletion { id, resource: flag })),
            3 => Ok(Write::DropDeletion(id)),
            4 => Source::conflict(alloc, turn, subject),
            5 => Ok(Write::DropConflict(self.draw.next() % 40)),
            6 => Ok(Write::SetNext(self.draw.next())),
            7 => Ok(Write::SetClient(id)),
            8 => self.context(alloc),
            _ => self.info(alloc),
        }
    }

    fn drawn(&mut self, alloc: Global, turn: u64) -> Result<Write, Trouble>
        ensures { IfOk result (λ write. IsSoundWrite write) }
    {
        let id = self.one_of();
        let flag = self.flag();
        let body = body(alloc, &mut self.draw)?;
        let subject = Subject {
            id,
            flag,
            body: body.as_str(),
        };
        self.write(alloc, turn, &subject)
    }

    /// The write of a turn: a kind after the other.
    pub(crate) fn writes(&mut self, alloc: Global, turn: u64) -> Result<Seq<Write>, Trouble>
        ensures { IfOk result (λ writes. All IsSoundWrite writes) }
    {
        let mut writes = Seq::new(alloc);
        let write = self.drawn(alloc, turn)?;
        add(&mut writes, write)?;
        Ok(writes)
    }
}

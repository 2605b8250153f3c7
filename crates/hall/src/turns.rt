ghost use Rattle.std.specs.Prelude.{◌≤◌, IsTrue};

use crate::gate::Gate;
use jop_outside::Draw;
use std::alloc::{AllocError, Global};
use std::sync::{Condvar, Mutex, Wait};

/// Whose turn it is.
#[derive(Debug, Drop)]
struct Table {
    draw: Draw,
    /// The seats that haven't left, in order of number.
    live: Vec<u32>,
    /// The seat whose turn it is; 0 where none is left.
    turn: u32,
    /// Whether that seat has passed.
    passed: bool,
}

impl Table {
    /// Draws whose turn is next: the live seat whose place, counted from 0, is the draw modulo their
    /// number.
    fn draw_next(&mut self) {
        let count = self.live.len();
        if count == 0 {
            self.turn = 0;
        } else {
            let place = self.draw.next() % count as u64;
            self.turn = self.live[place as usize];
        }
        self.passed = false;
    }

    /// Ends the turn of a seat that has passed in it.
    fn end_turn(&mut self, seat: u32) {
        if self.passed && self.turn == seat {
            self.draw_next();
        }
    }

    /// Takes a seat out.
    fn remove(&mut self, seat: u32) {
        self.live.retain(|live| *live != seat);
        if self.turn == seat {
            self.draw_next();
        }
    }
}

/// A gate that draws whose turn is next among the seats that haven't left. Who has passed keeps the
/// turn until it comes again, so that its call is done by then.
#[derive(Drop)]
pub struct Turns<R> {
    rt: Box<R>,
    table: Mutex<Table>,
    changed: Condvar,
}

impl<R: Wait + Drop> Turns<R> {
    /// A gate for the seats from 1 to this one.
    pub fn new(rt: R, alloc: Global, seats: u32, draw: Draw) -> Result<Turns<R>, AllocError>
        requires { 1 ≤ seats }
    {
        let mut live = Vec::new(alloc);
        for seat in 1..=seats {
            live.push(seat)?;
        }
        let mut table = Table {
            draw,
            live,
            turn: 0,
            passed: false,
        };
        table.draw_next();
        Ok(Turns {
            rt: Box::new(alloc, rt)?,
            table: Mutex::new(table),
            changed: Condvar::new(),
        })
    }
}

impl<R: Wait + Drop> Gate for Turns<R> {
    fn pass(&self, seat: u32) -> bool
        ensures { IsTrue result }
    {
        let mut table = self.table.lock(&*self.rt);
        table.end_turn(seat);
        self.changed.notify_all();
        let mut table = self
            .changed
            .wait_while(&*self.rt, table, |table| table.turn != seat);
        table.passed = true;
        true
    }

    fn leave(&self, seat: u32) {
        let mut table = self.table.lock(&*self.rt);
        table.remove(seat);
        self.changed.notify_all();
    }
}

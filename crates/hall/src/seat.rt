use crate::gate::Gate;
use crate::hall_store::Hall;
use jop_base::Bytes;
use jop_outside::{Clock, Faults};
use jop_target::{Call, Reply, Target};
use std::alloc::{AllocError, Global};
use std::sync::{Arc, Mutex, Wait};

/// A client's place at a shared hall, whose entries bear its number. As a target it tells no store,
/// since others write there too.
#[derive(Drop)]
pub struct Seat<R, C, G, const OPENING: u32> {
    pub(crate) rt: Box<R>,
    pub(crate) number: u32,
    pub(crate) faults: Faults,
    pub(crate) hall: Arc<Mutex<Hall<C, OPENING>>, Global>,
    pub(crate) gate: Arc<G, Global>,
}

impl<R: Wait + Drop, C: Clock, G: Gate, const OPENING: u32> Seat<R, C, G, OPENING> {
    /// The client makes no further call. Its seat leaves the gate in a turn of its own.
    pub fn leave(&self) {
        let _ = self.gate.pass(self.number);
        self.gate.leave(self.number);
    }
}

impl<R: Wait + Drop, C: Clock, G: Gate, const OPENING: u32> Target for Seat<R, C, G, OPENING> {
    ghost use Rattle.std.specs.Prelude.{None};

    ghost state = { λ s. record { store = None; faults = s.faults } };

    /// Passes the gate, and then makes the call under the hall's lock. It is `Failed` where the gate
    /// refuses or the hall's clock fails.
    fn call(&mut self, alloc: Global, call: &Call, blob: &mut Bytes) -> Result<Reply, AllocError> {
        if !self.gate.pass(self.number) {
            self.faults.rise();
            return Ok(Reply::Failed);
        }
        let reply = self
            .hall
            .lock(&*self.rt)
            .step(alloc, self.number, call, blob)?;
        if matches!(reply, Reply::Failed) {
            self.faults.rise();
        }
        Ok(reply)
    }
}

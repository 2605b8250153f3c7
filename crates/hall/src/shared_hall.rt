ghost use Rattle.std.specs.Prelude.{◌≡◌, ◌<◌, ◌^◌, Err, IfOk, OnOk, length, List};
ghost use Rattle.call_log.specs.Closing.{AllAgree, HasMismatch, SeatsWithin};
ghost use Rattle.call_log.specs.Logs.{IsHonestLog, opening_tree};
ghost use Rattle.call_log.specs.declared.entry.LogEntry.{LogEntry as Entry};
ghost use Rattle.call_log.specs.declared.mismatch.Mismatch.{Mismatch as Difference};

use crate::gate::Gate;
use crate::hall_store::Hall;
use crate::seat::Seat;
use call_log::{CloseErr, LogEntry, Trailed, close_log};
use jop_base::Copied;
use jop_outside::{Clock, Faults};
use std::alloc::{AllocError, Global};
use std::sync::{Arc, Mutex, Wait};

/// A hall that several clients use at once: one call at a time is made on it, under its lock.
#[derive(Drop)]
pub struct SharedHall<R, C, G, const OPENING: u32> {
    rt: Box<R>,
    hall: Arc<Mutex<Hall<C, OPENING>>, Global>,
    gate: Arc<G, Global>,
}

impl<R: Wait + Clone + Drop, C: Clock, G: Gate, const OPENING: u32> SharedHall<R, C, G, OPENING> {
    pub fn new(
        rt: R,
        alloc: Global,
        hall: Hall<C, OPENING>,
        gate: G,
    ) -> Result<SharedHall<R, C, G, OPENING>, AllocError> {
        Ok(SharedHall {
            rt: Box::new(alloc, rt)?,
            hall: Arc::new(alloc, Mutex::new(hall))?,
            gate: Arc::new(alloc, gate)?,
        })
    }

    /// A seat whose entries bear this number.
    pub fn seat(&self, alloc: Global, number: u32) -> Result<Seat<R, C, G, OPENING>, AllocError>
        ensures number { IfOk result (λ seat. seat.number ≡ number) }
        ensures unharmed { IfOk result (λ seat. seat.faults ≡ 0) }
    {
        Ok(Seat {
            rt: Box::new(alloc, (*self.rt).clone()?)?,
            number,
            faults: Faults::new(),
            hall: Arc::try_clone(&self.hall)?,
            gate: Arc::try_clone(&self.gate)?,
        })
    }

    /// The seat of that number leaves the gate at once: nobody makes calls there.
    pub fn leave(&self, number: u32) {
        self.gate.leave(number);
    }

    /// A copy of the log, where it agrees with these trails, of which the first is that of seat 1. The
    /// hall is locked while they are compared.
    pub fn close<T: Trailed>(&self, alloc: Global, trails: &[T]) -> Result<Vec<LogEntry>, CloseErr>
        requires { length trails.now < 2 ^ 32 }
        ensures honest { IfOk result (λ log. IsHonestLog (opening_tree OPENING) log.items) }
        ensures agree { IfOk result (λ log. AllAgree T.trail log.items trails.now) }
        ensures seats { IfOk result (λ log. SeatsWithin (length trails.now) log.items) }
        ensures err { (m : Difference) → result ≡ Err (CloseErr.Mismatch m) → (log : List Entry)
            × IsHonestLog (opening_tree OPENING) log × HasMismatch T.trail log trails.now m }
    {
        let hall = self.hall.lock(&*self.rt);
        close_hall(alloc, hall.log(), trails)
    }
}

/// Compares a log with the trails, and answers a copy of it.
fn close_hall<T: Trailed>(
    alloc: Global,
    log: &[LogEntry],
    trails: &[T],
) -> Result<Vec<LogEntry>, CloseErr>
    requires { length trails.now < 2 ^ 32 }
    ensures log { IfOk result (λ copy. copy.items ≡ log.now) }
    ensures agree { OnOk result (AllAgree T.trail log.now trails.now) }
    ensures seats { OnOk result (SeatsWithin (length trails.now) log.now) }
    ensures err { (m : Difference) → result ≡ Err (CloseErr.Mismatch m) →
        HasMismatch T.trail log.now trails.now m }
{
    close_log(alloc, log, trails)?;
    Ok(copy_log(alloc, log)?)
}

/// A copy of a log, with room for its entries alone.
fn copy_log(alloc: Global, log: &[LogEntry]) -> Result<Vec<LogEntry>, AllocError>
    ensures { IfOk result (λ copy. copy.items ≡ log.now) }
{
    let mut copy = Vec::with_capacity(alloc, log.len())?;
    for entry in log {
        copy.push(entry.copy(alloc)?)?;
    }
    Ok(copy)
}

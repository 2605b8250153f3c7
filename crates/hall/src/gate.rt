/// Says whose call comes next.
pub trait Gate: Drop {
    /// Waits until the seat of this number may make a call, and says whether it may.
    fn pass(&self, seat: u32) -> bool;

    /// The seat makes no further call.
    fn leave(&self, seat: u32);
}

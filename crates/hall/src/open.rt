ghost use Rattle.std.specs.Prelude.{IsTrue};

use crate::gate::Gate;

/// A gate that lets everyone pass at once.
#[derive(Clone, Copy, Debug)]
pub struct Open;

impl Gate for Open {
    fn pass(&self, _seat: u32) -> bool
        ensures { IsTrue result }
    {
        true
    }

    fn leave(&self, _seat: u32) {}
}

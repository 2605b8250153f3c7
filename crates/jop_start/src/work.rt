ghost use Rattle.std.specs.Prelude.{ℕ};
ghost use Rattle.jop_start.specs.Opening.{OpenNow};

use jop_target::Target;
use keeper::Keeper;
use std::alloc::Global;

/// What is done with a file of tables and a target while they are open.
pub trait Work {
    /// It was done, with this exit status, on what was first so and then so.
    ghost does: { Self → Self → ℕ → OpenNow → OpenNow → Type 0 };

    /// Does it, and gives the exit status of the program.
    fn done<K: Keeper, T: Target>(&mut self, alloc: Global, keeper: &mut K, target: &mut T) -> u8
        ensures { does self.old self.new result
            (record { keeper = K.state keeper.old; target = T.state target.old })
            (record { keeper = K.state keeper.new; target = T.state target.new }) };
}

//! Waiting for a file that is in use.

ghost use Rattle.std.specs.Prelude.{◌≡◌, ◌≤◌, ◌+◌, ◌^◌, ◌<◌, ℕ, Err};
ghost use Rattle.keeper_sqlite.specs.Waiting.{longest_pause};

use keeper_file::Trouble;

/// How long a pause is, in milliseconds, and how many there are.
const PAUSE: u64 = 50;

const PAUSES: u64 = 100;

/// What may be tried again after a while.
pub(crate) trait Tried {
    type Answer: Drop;

    /// How many milliseconds were let pass.
    ghost paused: { Self → ℕ };

    /// Tries it. `Busy` if it may go well a little later.
    fn attempt(&mut self) -> Result<Self::Answer, Trouble>
        ensures { paused self.new ≡ paused self.old };

    /// Lets so many milliseconds pass.
    fn pause(&mut self, millis: u64)
        requires { paused self.old + millis < 2 ^ 64 }
        ensures { paused self.new ≡ paused self.old + millis };
}

/// Tries it, and again after a pause each time that it is busy. `Busy` after five seconds.
pub(crate) fn patiently<T: Tried>(tried: &mut T) -> Result<T::Answer, Trouble>
    requires { T.paused tried.old ≡ 0 }
    ensures busy { result ≡ Err Trouble.Busy → T.paused tried.new ≡ longest_pause }
    ensures within { T.paused tried.new ≤ longest_pause }
{
    'tries: for _ in 0..PAUSES {
        match tried.attempt() {
            Err(Trouble::Busy) => tried.pause(PAUSE),
            outcome => return outcome,
        }
    }
    tried.attempt()
}

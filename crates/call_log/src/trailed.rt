ghost use Rattle.std.specs.Prelude.{◌≡◌, List};
ghost use Rattle.jop_target.specs.declared.event.Event.{Event};

use jop_target::Diary;

/// What has a client's trail: a diary, or what came of a job that kept one.
pub trait Trailed {
    /// The events of the trail.
    ghost trail: { Self → List Event };

    /// The diary of the trail.
    fn trail(&self) -> &Diary
        ensures { result.now.events ≡ trail self.now };
}

impl Trailed for Diary {
    ghost trail = { λ d. d.events };

    fn trail(&self) -> &Diary {
        self
    }
}

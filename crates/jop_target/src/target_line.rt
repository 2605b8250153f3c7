ghost use Rattle.std.proofs.Common.{◌∙◌};
ghost use Rattle.std.specs.Prelude.{refl, ◌≡◌};

use crate::call::Call;
use crate::diary::Diary;
use crate::event::Event;
use crate::line::Line;
use crate::reply::Reply;
use crate::target::Target;
use jop_base::Bytes;
use std::alloc::{AllocError, Global};

/// A target and the diary in which its calls are written down.
#[derive(Drop)]
pub struct TargetLine<'a, T: Target> {
    pub target: &'a mut T,
    pub diary: &'a mut Diary,
}

impl<'a, T: Target> Line for TargetLine<'a, T> {
    ghost state = { λ l. record { trail = l.diary.now.events; target = T.state l.target.now } };

    // It stays the line over this target and this diary.
    ghost keeps = { λ a b.
        (b.target.ghost_name ≡ a.target.ghost_name) × (b.diary.ghost_name ≡ a.diary.ghost_name) };

    ghost keeps_same = { λ a. (refl, refl) };

    ghost keeps_on = { λ a b c h k. (k.0 ∙ h.0, k.1 ∙ h.1) };

    fn call(&mut self, alloc: Global, call: Call, blob: &mut Bytes) -> Result<(), AllocError> {
        self.diary.send(call)?;
        let reply = self.target.call(alloc, self.diary.sent(), blob)?;
        self.diary.answer(reply);
        Ok(())
    }

    fn last(&self) -> &Reply {
        match self.diary.events().last() {
            Some(Event::Called(_, reply)) => reply,
            _ => unreachable!(),
        }
    }

    fn heard(&self) -> u64 {
        self.diary.heard()
    }
}

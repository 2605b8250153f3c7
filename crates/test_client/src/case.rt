use crate::broken_off::BrokenOff;
use crate::files::Text;
use crate::parts::Part;
use crate::place::Place;
use crate::shown::Standing;
use crate::step::Step;
use std::alloc::Global;

/// What a client has done, the items' files that its session meets, and what comes of it.
#[derive(Clone, Copy)]
pub struct Case {
    pub name: &'static str,
    pub steps: &'static [Step],
    pub files: &'static [Text],
    pub standing: Standing,
    /// The items' files that are left.
    pub left: &'static [Text],
    /// How many items are put, removed, taken, gone, copied and bad.
    pub counts: [u64; 6],
}

impl Case {
    /// Whether this part of a session comes to that.
    fn is_met(&self, alloc: Global, part: Part) -> Result<bool, BrokenOff> {
        let mut place = Place::new(alloc, self.steps, self.files)?;
        self.is_met_at(alloc, part, &mut place)
    }

    /// The same at a place where the client has done its steps.
    fn is_met_at(&self, alloc: Global, part: Part, place: &mut Place) -> Result<bool, BrokenOff> {
        let done = place.counts(alloc, part)? == self.counts;
        Ok(done && place.has(alloc, &self.standing)? && place.holds_alone(self.left)?)
    }
}

/// The name of the first of these cases that doesn't come out by this part of a session. None has
/// the empty name.
pub fn first_other(alloc: Global, part: Part, cases: &[Case]) -> Result<&'static str, BrokenOff> {
    for case in cases {
        if !case.is_met(alloc, part)? {
            return Ok(case.name);
        }
    }
    Ok("")
}

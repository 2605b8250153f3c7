use crate::drawing::Drawing;
use crate::intake::Intake;

/// What a command needs beside the tables.
#[derive(Clone, Copy, Debug, PartialEq, Eq)]
pub(crate) struct Needs {
    pub(crate) intake: Option<Intake>,
    /// Whether it looks at the clock.
    pub(crate) clock: bool,
    pub(crate) draws: Drawing,
}

/// Of a command that works on the tables alone.
pub(crate) const NOTHING: Needs = Needs {
    intake: None,
    clock: false,
    draws: Drawing::NoId,
};

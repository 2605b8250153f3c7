use conflicts::Refusal;

/// What an upgrade came to whose lease is still held.
#[derive(Clone, Copy, Debug, PartialEq, Eq)]
pub(crate) enum Outcome {
    Upgraded,
    /// It was refused, though nothing has failed.
    Refused(Refusal),
}

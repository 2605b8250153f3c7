/// What was read in the pieces that came so far.
#[derive(Clone, Copy, Debug, PartialEq, Eq)]
pub enum Fed {
    /// No whole response, and none that can't be read.
    More,
    /// A whole response. So many bytes at the end of the piece don't belong to it.
    Whole { rest: u64 },
    /// No response to the call; the connection is of no more use.
    Bad,
}

/// A piece of work, which is done once.
pub trait Job: Drop {
    /// What comes of it.
    type Done: Drop;

    /// Whether this can come of it.
    ghost gives: { Self → Self.Done → Type 0 };

    /// Does it.
    fn work(self) -> Self::Done
        ensures { gives self result };
}

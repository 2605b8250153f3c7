use crate::fault::Breaking;

/// A file of a target, by its path from the root.
#[derive(Clone, Copy)]
pub(crate) enum File {
    Holds(&'static str, &'static str),
    Gone(&'static str),
}

/// A command that is to be broken off, and what was before it.
#[derive(Clone, Copy)]
pub(crate) struct Scene {
    pub name: &'static str,
    /// The files that the target holds at first.
    pub files: &'static [File],
    /// What the client does then, a command a line, each with its input behind a `|`.
    pub day: &'static str,
    /// What others do to files then.
    pub since: &'static [File],
    /// What the client does last.
    pub evening: &'static str,
    pub command: &'static str,
    /// The exit status of the command where nothing fails.
    pub exit: u8,
    /// How many calls of its tables the client has made before it.
    pub asked: u64,
    /// How many faults break it off.
    pub breaking: Breaking,
}

use crate::id_start::IdStart;

/// How many rows have an id that begins so, where it isn't one.
#[derive(Clone, Copy, Debug, PartialEq, Eq)]
pub struct StartCount {
    pub start: IdStart,
    pub count: u64,
}

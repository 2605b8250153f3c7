/// A place among what a seat was answered, and one in its trail, both counted from 0.
#[derive(Clone, Copy, Debug)]
pub(crate) struct Gap {
    pub entry: usize,
    pub event: usize,
}

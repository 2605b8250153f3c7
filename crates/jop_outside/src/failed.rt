/// What an object of the outside answers when it failed. It comes only if that object's count of faults rose.
#[derive(Clone, Copy, Debug, PartialEq, Eq)]
pub struct Failed;

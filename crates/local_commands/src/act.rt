use keeper::Blob;
use local_store::Change;

/// What is done to a keeper.
#[derive(Debug, Drop)]
pub enum Act {
    /// The bytes of a resource are saved.
    SaveBlob(Blob),
    /// A change is made, and written down.
    MakeChange(Change),
}

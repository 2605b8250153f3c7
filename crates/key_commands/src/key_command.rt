use jop_base::{Id, Text};
use local_commands::TypedId;

/// A command on the master keys of this machine's tables.
#[derive(Debug, Drop)]
pub enum KeyCommand {
    /// Prints the bytes of a resource, which are opened under a password if they are sealed.
    Blob { id: TypedId, password: Option<Text> },
    /// Lists the keys.
    List,
    /// Makes a key under a password. It is active then, and puts are to be sealed.
    New { password: Text },
    /// Makes the key of an id active. Puts are to be sealed then.
    Use { id: Id },
}

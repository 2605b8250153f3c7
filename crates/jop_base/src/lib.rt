//! The small types that every other crate stands on: bytes, texts and lists that contracts see as lists, lists whose
//! items have keys, and the names of the files of a target.
//!
//! Begin with [`Seq`] and [`Keyed`], and with [`Path`], the name of a file.
#![tactic(auto)]

mod bytes;
mod context;
mod copied;
mod decimal;
mod dir;
mod id;
mod keyed;
mod letting_go;
mod lock_name;
mod path;
mod path_name;
mod seq;
mod text;
mod time;

pub use bytes::Bytes;
pub use context::Context;
pub use copied::Copied;
pub use decimal::{are_decimal_digits, decimal_text, read_decimal};
pub use dir::Dir;
pub use id::{ClientId, Id};
pub use keyed::{Key, Keyed};
pub use letting_go::let_go;
pub use lock_name::{LockKind, LockName};
pub use path::Path;
pub use seq::Seq;
pub use text::Text;
pub use time::{MAX_TIME, is_time};

//! Joplin's text of an item, written and read exactly: a title, a body and pairs of a key and a value.
//!
//! Begin with [`Item`], [`read_item`] and [`write_item`]. It stands on the texts and lists of `jop_base`.
#![tactic(auto)]

mod bad_item;
mod block;
mod canonical;
mod escape;
mod item;
mod laws;
mod line;
mod pair;
mod props;
mod read;
mod trim;
mod type_value;
mod valid;
mod write;

pub use bad_item::{BadItem, BadWhy, ItemErr};
pub use canonical::canonical_parts;
pub use escape::{escape_value, unescape_value};
pub use item::{Item, Prop};
pub use laws::{
    reads_as_one, reads_to_what_it_reads_as, reads_what_is_written, sets_one_key,
    setting_keeps_valid, unescapes_what_is_escaped, what_is_read_is_valid,
};
pub use props::{prop, set_prop};
pub use read::read_item;
pub use trim::trimmed;
pub use valid::is_item;
pub use write::{write_around, write_item};

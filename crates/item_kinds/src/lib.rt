//! What the pairs of an item say: its kind, its ids, its times, whether it is sealed. And new items of the kinds that
//! this client makes.
//!
//! Begin with [`Kind`], [`read_time`] and [`note_item`]. It stands on `item_text`, and on the calendar of `jiff`.
#![tactic(auto)]

mod digits;
mod fields;
mod ids;
mod kind;
mod laws;
mod moment;
mod new_items;
mod number;
mod pairs;
mod resource;
mod stamp;
mod time;

pub use fields::{is_sealed, updated_of};
pub use ids::{id_of, note_of, parent_of, tag_of};
pub use kind::{Kind, kind_of};
pub use laws::{kinds_have_their_numbers, reads_as_one_time, reads_the_time_written};
pub use new_items::{folder_item, note_item, note_tag_item, tag_item};
pub use resource::resource_item;
pub use time::{read_time, write_time};

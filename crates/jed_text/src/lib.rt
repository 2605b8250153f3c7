//! Texts as Joplin seals them: units of UTF-16, and JavaScript's `escape` and `unescape`.
//!
//! Begin with [`escape`] and [`unescape`].
#![tactic(auto)]

mod escaping;
mod hexadecimal;
mod laws;
mod unescaping;
mod units;

pub use escaping::{escape, escape_units};
pub use hexadecimal::{four_digits, two_digits};
pub use laws::{joins_what_is_cut, spells_its_units, unescapes_what_is_escaped};
pub use unescaping::{unescape, unescape_units};
pub use units::{units_of, units_text};

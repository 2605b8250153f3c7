//! The parts of which WebDAV messages are made: methods, targets, fields, decimal numbers, dates,
//! and the body that lists a folder. Each is written and read exactly.
//!
//! Begin with [`write_multistatus`] and [`read_multistatus`], and with `specs/Multistatus.antt`,
//! the layout of that body. [`after_folder`], [`line_at`], [`follows`] and [`ending`] are its parts,
//! for one who reads it line by line. Dates are those of `httpdate`, and a head's fields those that
//! `httparse` finds.
#![tactic(auto)]

mod date;
mod decimal;
mod field;
mod laws;
mod layout;
mod method;
mod multistatus_reader;
mod multistatus_writer;
mod target;

pub use date::{date_of, read_moment};
pub use decimal::append_decimal;
pub use field::{FieldValue, field_value, has_value};
pub use laws::{a_target_names_one_thing, a_written_listing_is_read};
pub use layout::ending;
pub use method::Method;
pub use multistatus_reader::{after_folder, follows, line_at, read_multistatus};
pub use multistatus_writer::write_multistatus;
pub use target::{dir_target, path_target, put_limit, read_dir, read_path};

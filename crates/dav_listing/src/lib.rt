//! What a WebDAV server says that a folder holds: the body of a 207 response (RFC 4918, 13 and 14), in whatever layout
//! the server writes it.
//!
//! A file that is left out of a listing counts as deleted. So a body is a listing only where every resource that it
//! shows is accounted for; `specs/Multistatus.antt` says which resources it shows, and `specs/Listings.antt` what they
//! are to the folder. Begin with these, and with [`read_listing`].
#![tactic(auto)]

mod class;
mod element;
mod href;
mod laws;
mod listing_reader;
mod member;
mod mode;
mod multistatus_reader;
mod place;
mod rising;

pub use class::Class;
pub use element::Element;
pub use laws::{
    a_body_is_one_listing, a_listed_file_is_of_the_folder, a_listed_file_is_shown,
    a_reader_keeps_few_bytes, a_shown_file_is_listed, a_written_multistatus_is_read,
};
pub use listing_reader::{ListingReader, read_listing};
pub use member::{Member, Props};
pub use mode::{Effect, Mode};
pub use multistatus_reader::MultistatusReader;
pub use place::{Opening, Place};

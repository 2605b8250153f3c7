//! Messages of WebDAV: the requests and responses by which a target is called over a link, written
//! exactly and read in any cut.
//!
//! Begin with [`read_request`] and `specs/RequestReading.antt`. Heads are read by `httparse`, and
//! dates by `httpdate`. A caller keeps the bytes that came until a message is whole;
//! [`request_missing`] and [`response_missing`] tell it how many more to wait for, so that a long
//! body isn't looked at again for each piece. One who keeps no whole response begins with
//! [`read_head`]; one who sends a long body without a copy of it, with [`split_request`].
#![tactic(auto)]

mod frame;
mod framing;
mod head_reader;
mod laws;
mod limits;
mod missing;
mod outcome;
mod request;
mod request_reader;
mod request_writer;
mod response_reader;
mod response_writer;
mod target_stage;

pub use frame::Frame;
pub use head_reader::{ReadHead, read_head};
pub use laws::{
    a_cut_changes_no_request, a_cut_changes_no_response, a_cut_request_is_more,
    a_cut_response_is_more, a_read_reply_fits_its_call, a_read_reply_is_told_whole,
    a_written_request_is_read, a_written_response_is_read, later_bytes_change_no_request,
    later_bytes_change_no_response, missing_bytes_make_a_request, missing_bytes_make_a_response,
    one_request_is_read, one_response_is_read,
};
pub use limits::{FIELD_LIMIT, HEAD_LIMIT};
pub use missing::{request_missing, response_missing};
pub use outcome::Outcome;
pub use request::Request;
pub use request_reader::{ReadRequest, read_request};
pub use request_writer::{split_request, write_request};
pub use response_reader::{ReadResponse, read_response};
pub use response_writer::{write_refusal, write_response};

//! The calls on a target that a WebDAV server holds: each as a request, and each response as a reply.
//!
//! `specs/Asking.antt` says what is asked, and `specs/Outcomes.antt` what each status means. Begin with these, with
//! [`ask`] and with [`reply_of`].
#![tactic(auto)]

mod asking;
mod laws;
mod outcome;
mod reply;
mod site;

pub use asking::ask;
pub use laws::{
    a_listing_is_never_absent, a_request_keeps_the_protocol, a_response_is_one_reply,
    content_has_an_end,
};
pub use outcome::{Outcome, call_outcome};
pub use reply::reply_of;
pub use site::Site;

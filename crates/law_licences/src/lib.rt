//! What a client may do on a target and in its own tables, by what one has seen of it: its licences.
//!
//! It is definitions alone. `specs/Views.antt` says what is seen of a client, and `specs/Licences.antt` what
//! each of its calls and changes asks of that; the licences stand by topic in files of their own. The laws
//! are functions with nothing to do, whose contracts say them.
#![tactic(auto)]

mod laws;
mod stories;

pub use laws::{keys_are_a_sessions_own, obedience_joins, sessions_settle_rows, work_is_told};
pub use stories::{
    can_obey, refuses_conflicts, refuses_deletions, refuses_others, refuses_pages, refuses_uploads,
    refuses_without_its_keys,
};

//! What becomes of the notes that clients save, over every history of all clients: none is lost.
//!
//! `specs/Acts.antt` tells a history of one item, `specs/Licences.antt` what a client may do there,
//! `specs/Standing.antt` which item each row and file stands for, and `specs/Fates.antt` what may
//! become of a saved note. `specs/Telling.antt` says what a history of a target is for one item.
//! Begin with the law [`notes_are_kept`].
//!
//! The same of clients whose calls and changes have their licences over all their tables:
//! `specs/Known.antt` says what of a client's tables and calls is about one item,
//! `specs/FairTables.antt` what is asked of a history, `specs/Trails.antt` how one client's run stands
//! in it, and `specs/Holding.antt` that rows and conflict notes stand for what they hold. Begin with
//! the law [`notes_are_kept_by_tables`].
#![tactic(auto)]

mod laws;
mod needed;
mod tables;

pub use laws::{
    clients_can_cross, clients_can_cross_on_a_target, notebooks_are_not_kept, notes_are_kept,
    notes_are_kept_on_a_target,
};
pub use needed::{
    needs_a_check_of_the_session, needs_a_copy, needs_a_copy_of_what_goes, needs_an_honest_store,
    needs_changes_to_be_left, needs_deletes_to_be_recorded, needs_no_upload_between,
    needs_puts_on_their_base, needs_saves_outside_sessions, needs_uploads_to_be_heard,
};
pub use tables::{
    clients_can_cross_by_tables, notes_are_kept_by_tables, tables_hold_what_is_told,
    views_say_what_is_known,
};

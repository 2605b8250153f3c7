//! The commands that work on this machine's own tables: what each does, over any outside of a run, and
//! the text that it prints.
//!
//! Begin with `specs/Running.antt`, which says what a run of any of them comes to, and with a command's
//! own file in `specs/Commands/`. A command is pure: [`LocalCommand`] has its rows of what it needs, of
//! what it asks of the tables and of what it makes, and [`obey`] alone touches the outside. Words,
//! printing and exit statuses are the program's.
#![tactic(auto)]

mod act;
mod acting;
mod books;
mod clock;
mod command;
mod drawing;
mod finding;
mod id_start;
mod intake;
mod laws;
mod lines;
mod local_err;
mod needs;
mod obeying;
mod start_count;
mod supply;
mod typed_id;
mod work;

pub use act::Act;
pub use command::LocalCommand;
pub use command::attach::BLOB_LIMIT;
pub use id_start::IdStart;
pub use intake::BODY_LIMIT;
pub use laws::{
    acts_change_tables_by_their_changes, acts_note_their_changes, commands_make_licensed_changes,
    only_plans_with_bytes_save_some, refusals_leave_all_as_it_was, runs_follow_their_acts,
    tables_give_one_answer, unhindered_runs_go_well,
};
pub use lines::id_line;
pub use local_err::LocalErr;
pub use obeying::obey;
pub use start_count::StartCount;
pub use typed_id::TypedId;

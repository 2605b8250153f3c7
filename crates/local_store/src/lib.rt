//! What a machine knows: its items, what is to be deleted on the target, conflict notes; and the
//! changes that may be made to it.
//!
//! Begin with [`Tables`] and [`Change`], and for what a change does with `specs/Changing.antt`.
#![tactic(auto)]

mod change;
mod changes;
mod conflict_note;
mod content;
mod deletion;
mod effects;
mod kinds;
mod laws;
mod order;
mod row;
mod table;
mod tables;

pub use change::Change;
pub use changes::Changes;
pub use conflict_note::ConflictNote;
pub use content::Content;
pub use deletion::Deletion;
pub use kinds::{has_kind, is_folder};
pub use laws::{
    allowed_changes_keep_sound, runs_make_their_changes, told_tables_are_sound,
    told_tables_follow_changes,
};
pub use row::Row;
pub use table::Table;
pub use tables::Tables;

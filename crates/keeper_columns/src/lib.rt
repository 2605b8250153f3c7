//! Tables as a database holds them: records of numbers, texts and bytes, and which rows, deletions and conflict notes
//! they hold. What is written is read back as it was, and what can't be read back, or would be unsound, is refused.
//!
//! Begin with [`RowRecord`] and [`MetaRecord`], and for what a record holds with `specs/Holding.antt`. It stands on
//! the tables of `local_store`, and touches no database.
#![tactic(auto)]

mod deletion_record;
mod flag;
mod ids;
mod laws;
mod meta_record;
mod note_record;
mod number;
mod record;
mod record_err;
mod row_record;
mod texts;

pub use deletion_record::DeletionRecord;
pub use ids::ids_text;
pub use laws::records_hold_one_value;
pub use meta_record::MetaRecord;
pub use note_record::NoteRecord;
pub use number::{number_text, read_number};
pub use record::Record;
pub use record_err::RecordErr;
pub use row_record::RowRecord;

//! A keeper of tables in a database of SQL: in an SQLite file.
//!
//! This is the edge: what stands in a file, and what a statement does there, no contract can say.
//! The records and their meaning are those of `keeper_columns`, the writes of a change those of
//! `keeper_records`; whose a file is, `keeper_file` says. What is proved here is which statements
//! are said of a change, with which values, and that they are made together or not at all; that
//! what is read is what the database shows, and sound; and that each fault is counted. Trusted are
//! the texts of the statements and queries, in `src/statements.rt`, which name has which of them,
//! and the few lines by which an open file is a [`Database`].
//!
//! Begin with [`SqliteRecords`] and [`SqliteKeeper`], [`Database`], and `specs/Statements.antt`.
#![tactic(auto)]

mod answer;
mod columns;
mod database;
mod new_tables;
mod open_file;
mod opened;
mod opener;
mod opening;
mod query;
mod reading;
mod said;
mod sql_records;
mod sqlite_keeper;
mod sqlite_records;
mod statement;
mod statements;
mod together;
mod values;
mod waiting;
mod work;
mod writing;

pub use columns::FromColumns;
pub use database::Database;
pub use open_file::OpenFile;
pub use opened::Opened;
pub use opener::{FileOpener, Opener};
pub use query::Query;
pub use said::Said;
pub use sql_records::SqlRecords;
pub use sqlite_keeper::{SqliteKeeper, keeper_at};
pub use sqlite_records::SqliteRecords;
pub use statement::Statement;
pub use work::Work;

use crate::statement::Statement;
use sqlite_value::row::Row;

/// A statement that was said to a database, with its values.
#[derive(Debug, Drop)]
pub struct Said {
    pub statement: Statement,
    pub values: Row,
}

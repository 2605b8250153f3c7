//! The tables, and what asks a database for them. A backslash at the end of a line joins it to the next, so that the
//! database keeps the text of a table on one line.

/// The tables, as the database keeps their texts.
pub const TABLES: [&str; 5] = [
    "CREATE TABLE meta (key TEXT PRIMARY KEY, value BLOB NOT NULL) STRICT",
    "CREATE TABLE rows (id TEXT PRIMARY KEY, sealed INTEGER NOT NULL, content BLOB NOT NULL, \
base BLOB, pending INTEGER NOT NULL) STRICT",
    "CREATE TABLE deletions (id TEXT PRIMARY KEY, resource INTEGER NOT NULL) STRICT",
    "CREATE TABLE conflicts (number INTEGER PRIMARY KEY, note TEXT NOT NULL, \
content BLOB NOT NULL) STRICT",
    "CREATE TABLE blobs (id TEXT PRIMARY KEY, bytes BLOB NOT NULL) STRICT",
];

/// How many things stand in the database, and how many of them are tables with one of these texts. What it makes for
/// itself isn't counted: its name begins with `sqlite_`. At first this program asked for the tables where they are
/// missing.
pub(crate) const COUNT_THINGS: &str = "\
SELECT count(*), coalesce(sum(replace(sql, 'IF NOT EXISTS ', '') IN (?1, ?2, ?3, ?4, ?5)), 0) \
FROM sqlite_schema WHERE substr(name, 1, 7) <> 'sqlite_'";

//! All that is asked of the database: one text for each kind of read and of write, which no clause
//! can say. What the tables are, `keeper_file` says.

pub(crate) const BEGIN: &str = "BEGIN";

pub(crate) const COMMIT: &str = "COMMIT";

pub(crate) const ROLL_BACK: &str = "ROLLBACK";

pub(crate) const META: &str = "SELECT value FROM meta WHERE key = ?1";

/// In any order.
pub(crate) const ALL_ROWS: &str = "SELECT id, sealed, content, base, pending FROM rows";

pub(crate) const ROW: &str = "SELECT id, sealed, content, base, pending FROM rows WHERE id = ?1";

pub(crate) const ALL_DELETIONS: &str = "SELECT id, resource FROM deletions ORDER BY id";

pub(crate) const ALL_CONFLICTS: &str =
    "SELECT number, note, content FROM conflicts ORDER BY number";

pub(crate) const BLOB: &str = "SELECT bytes FROM blobs WHERE id = ?1";

/// A row that is there is written in its place: another one would take an entry of the index, and
/// two more pages of the file, at each commit.
pub(crate) const SET_ROW: &str = "\
INSERT INTO rows (id, sealed, content, base, pending) VALUES (?1, ?2, ?3, ?4, ?5) \
ON CONFLICT (id) DO UPDATE SET sealed = excluded.sealed, content = excluded.content, \
base = excluded.base, pending = excluded.pending";

pub(crate) const DROP_ROW: &str = "DELETE FROM rows WHERE id = ?1";

pub(crate) const SET_DELETION: &str =
    "INSERT OR REPLACE INTO deletions (id, resource) VALUES (?1, ?2)";

pub(crate) const DROP_DELETION: &str = "DELETE FROM deletions WHERE id = ?1";

/// Nothing asks for the bytes of a resource that has no row, and no deletion that is still to be
/// made on the target.
pub(crate) const DROP_BYTES: &str = "\
DELETE FROM blobs WHERE id = ?1 AND NOT EXISTS (SELECT 1 FROM rows WHERE id = ?1) \
AND NOT EXISTS (SELECT 1 FROM deletions WHERE id = ?1)";

pub(crate) const ADD_CONFLICT: &str =
    "INSERT INTO conflicts (number, note, content) VALUES (?1, ?2, ?3)";

pub(crate) const DROP_CONFLICT: &str = "DELETE FROM conflicts WHERE number = ?1";

pub(crate) const SET_NEXT: &str =
    "INSERT OR REPLACE INTO meta (key, value) VALUES ('next_conflict', ?1)";

pub(crate) const SET_CLIENT: &str =
    "INSERT OR REPLACE INTO meta (key, value) VALUES ('client', ?1)";

/// A context that is as it was changes no page, so that its commit writes nothing.
pub(crate) const SET_CONTEXT: &str = "\
INSERT INTO meta (key, value) VALUES ('moment', ?1), ('seen', ?2) \
ON CONFLICT (key) DO UPDATE SET value = excluded.value WHERE value <> excluded.value";

pub(crate) const SET_INFO: &str = "INSERT OR REPLACE INTO meta (key, value) VALUES ('info', ?1)";

pub(crate) const SET_BLOB: &str = "INSERT OR REPLACE INTO blobs (id, bytes) VALUES (?1, ?2)";

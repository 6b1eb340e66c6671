//! The limits on data, each number once; `specs/Limits.antt` has the same numbers under the same names.

/// Of a table.
pub const MOST_COLUMNS: usize = 64;

/// Of a table, unique or not; the primary key isn't counted.
pub const MOST_INDEXES: usize = 64;

/// Of a table; NOT NULL isn't counted.
pub const MOST_CHECKS: usize = 64;

/// Of the table that has them; how many refer to a table has no limit of its own.
pub const MOST_FOREIGN_KEYS: usize = 64;

/// Of the name of a table, a column or a constraint, which has at least one byte.
pub const MOST_NAME_BYTES: usize = 64;

/// Of a schema as it is written down, with the texts of its CHECKs.
pub const MOST_SCHEMA_BYTES: u64 = 32_768;

/// Of a row's primary key as key bytes.
pub const MOST_KEY_BYTES: usize = 1024;

/// Of a row's cells in an index's own columns, as key bytes.
pub const MOST_INDEX_BYTES: usize = 1024;

/// Of a row's cells beside its primary key as row bytes, in conflicts and violations too.
pub const MOST_ROW_BYTES: usize = 8192;

/// Of a table; the rows in its conflicts and violations aren't counted.
pub const MOST_ROWS: u64 = 10_000_000;

/// Of a database.
pub const MOST_TABLES: usize = 256;

/// Of the state that sessions share.
pub const MOST_BRANCHES: usize = 1024;

/// Of a commit.
pub const MOST_PARENTS: usize = 2;

/// Of a commit's committer: the name of the session that made it, or `doltrun` for the first one.
pub const MOST_COMMITTER_BYTES: usize = 32;

/// Of a commit's message; no procedure takes an empty one.
pub const MOST_MESSAGE_BYTES: usize = 8192;

//! The limits of a store.

/// The most tables.
pub const MAX_TABLES: usize = 64;

/// The most entries that the versions which are kept show together.
pub const MAX_ENTRIES: u64 = 200_000;

/// The most rows that one commit inserts.
pub const MAX_COMMIT_ROWS: u64 = 1_000_000;

/// The last version, which is the number of commits.
pub const MAX_VERSION: u64 = 1_000_000;

/// The most columns of a partition.
pub const MAX_PARTITION_COLUMNS: usize = 8;

/// The most rows of a group of a partition.
pub const MAX_PARTITION_SIZE: u64 = 200_000;

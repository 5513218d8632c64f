//! The limits of a cache.

/// The most tables of versions whose groups are kept.
pub const MAX_KEPT: usize = 8;

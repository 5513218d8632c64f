//! Why a table has no groups.

use std::alloc::AllocError;
use thiserror::Error;

/// Why there are no groups of a table.
#[derive(Clone, Copy, Debug, PartialEq, Eq, Error)]
pub enum GroupFault {
    /// The version has no such table, or the table isn't cut into groups.
    #[error("the table isn't cut into groups")]
    NoPartition,
    #[error("out of memory")]
    Memory(AllocError),
}

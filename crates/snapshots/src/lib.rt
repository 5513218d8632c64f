//! Versions of tables as values that share what didn't change.
#![tactic(auto)]

mod copies;
mod entries;
mod shared;
mod snapshot;
mod tables;

pub use copies::{copied_row, copied_schema, copied_text};
pub use entries::Entries;
pub use shared::Shared;
pub use snapshot::Snapshot;
pub use tables::{Partition, Table};

#[cfg(test)]
mod tests;

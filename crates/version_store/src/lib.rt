//! The history of a store: what its commits do to its tables, and why a commit is refused.
#![tactic(auto)]

mod changes;
mod conditions;
mod creating;
mod deleting;
mod draft;
mod faults;
mod inserting;
mod kinds;
pub mod laws;
mod limits;
mod memory;
mod naming;
mod partitioning;
mod performing;
mod setting;
mod store;
mod tables;
mod totals;
mod updating;
mod vault;
mod versions;

pub use changes::{Change, Commit};
pub use faults::{CommitFault, CommitKind, PartitionFault, RowKind, TableFault};
pub use limits::{
    MAX_COMMIT_ROWS, MAX_ENTRIES, MAX_PARTITION_COLUMNS, MAX_PARTITION_SIZE, MAX_TABLES,
    MAX_VERSION,
};
pub use memory::MemVault;
pub use store::{Committed, VaultFault, VersionStore};
pub use vault::{SoloVault, Vault};

#[cfg(test)]
mod tests;

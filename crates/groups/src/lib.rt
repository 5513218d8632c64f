//! The groups of a table's rows by its partition, and a cache of them.
#![tactic(auto)]

mod cache;
mod fault;
mod grouping;
pub mod laws;
mod limits;
mod pairs;
mod points;
mod radii;

pub use cache::GroupCache;
pub use fault::GroupFault;
pub use grouping::groups_of;
pub use limits::MAX_KEPT;

#[cfg(test)]
mod tests;

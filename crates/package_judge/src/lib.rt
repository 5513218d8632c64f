//! Packages as lists of pairs, and how they are judged.
#![tactic(auto)]

mod judging;
pub mod laws;
mod packages;
mod sums;

pub use judging::{Place, Verdict, judge};
pub use packages::{MAX_COUNT, Package};

#[cfg(test)]
mod tests;

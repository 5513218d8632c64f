//! What a package query means: packages, totals, when a package meets a query, and which is best.
//! The definitions are in `specs/`; the plain program computes them on small inputs.
#![tactic(auto)]

mod comparison;
mod limits;
pub mod plain;
mod search;
mod sums;

pub use comparison::Comparison;
pub use plain::{PlainBest, PlainConjunct, PlainGoal, PlainQuery};

#[cfg(test)]
mod tests;

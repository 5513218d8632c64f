//! Bound queries: columns as places, and sums in units of one scale. Which rows meet a condition.
#![tactic(auto)]

pub mod conditions;
pub mod queries;
mod truth;

pub use conditions::{RowPred, RowRight};
pub use queries::{BoundAgg, BoundConjunct, BoundGoal, BoundQuery, BoundTerm, Op};
pub use truth::eval;

#[cfg(test)]
mod tests;

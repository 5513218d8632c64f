//! Multipliers and a place to split at, for a box of a bounded integer program.
#![tactic(auto)]

mod basis;
mod breakpoints;
mod columns;
mod dual;
mod fixed;
mod multipliers;
mod nearest;
mod place;
mod proposal;
mod proposer;
mod ranged;
mod rounding;
mod table;
mod turns;

pub use proposal::Proposal;
pub use proposer::propose;

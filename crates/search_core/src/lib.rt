//! The exact search: branch and bound over boxes, by multipliers and points that proposers offer and that are tested.
#![tactic(auto)]

mod boxes;
mod event;
mod exclusion;
mod guide;
mod laws;
mod machine;
mod multipliers;
mod node;
mod open_path;
mod plan;
mod solved;
mod solver;
mod state;

pub use event::{Event, Hand, Seen, Stepped};
pub use laws::{best_is_offered, enough_decides, runs_keep, splits_were_open};
pub use machine::Core;
pub use node::{Handled, Work, handle_node, split_place};
pub use open_path::OpenPath;
pub use simplex_proposer::Proposal;
pub use solved::Solved;
pub use solver::{SoloSolver, Solver, go_on};

#[cfg(test)]
mod tests;

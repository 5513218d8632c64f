//! Points of a box near what multipliers say of it.
#![tactic(auto)]

mod best;
mod changes;
mod fixed;
mod greedy;
mod join;
mod near;
mod pivot;
mod rounder;
mod weights;

pub use rounder::{MOST_POINTS, round_points};

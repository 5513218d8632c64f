//! Groups of points that are near one another, by a tree that halves each column at its mean.
#![tactic(auto)]

mod columns;
mod dividing;
mod group;
pub mod laws;
mod splitting;

pub use group::Group;
pub use splitting::split_points;

#[cfg(test)]
mod tests;

//! A lane of open paths between two threads: its owner pushes and pops at the back, and one thief steals at
//! the front. None waits for the other.
#![tactic(auto)]

mod lane;
mod view;

pub use lane::{Lane, LaneOwner, LaneThief, Stolen, drain_joined};
pub use view::LaneView;

#[cfg(test)]
mod tests;
#[cfg(test)]
mod trial;

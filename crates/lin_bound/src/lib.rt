//! Bounded integer programs, the boxes that a search cuts them into, and dual bounds over a box.
#![tactic(auto)]

mod bounds;
mod laws;
mod mult;
mod narrow;
mod path;
mod plain;
mod points;
mod problem;
mod region;
mod wide;

pub use bounds::{bound, closes};
pub use laws::{
    closed_holds_none, ends_are_greatest, halves_cover, one_point_closes, weak_duality,
};
pub use mult::{Mult, plain_mult};
pub use path::{Branch, Path};
pub use plain::plain_closing;
pub use points::Point;
pub use problem::Problem;
pub use region::{Region, box_of, try_box_of};

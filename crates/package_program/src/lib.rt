//! From a package query over any rows to a bounded integer program, and from points to packages.
#![tactic(auto)]

mod columns;
mod copies;
mod faults;
mod laws;
mod linear;
mod points;
mod rows;
mod sums;
mod translation;

pub use faults::FormFault;
pub use laws::{bound_query_is_translated, program_keeps_meaning, row_bound_holds};
pub use linear::Linear;
pub use points::{package_of, point_of};
pub use translation::translate;

#[cfg(test)]
mod tests;

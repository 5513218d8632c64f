//! The rows of a table from a body of CSV.
#![tactic(auto)]

mod fields;
pub mod laws;
mod loading;
mod records;

pub use loading::{LoadFault, Loaded, MAX_LOAD_BYTES, load};

#[cfg(test)]
mod tests;

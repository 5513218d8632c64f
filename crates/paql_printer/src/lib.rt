//! Prints a statement as its canonical text, and the laws that reading this text gives the
//! statement back, and no other.
#![tactic(auto)]

mod aggregates;
mod conditions;
mod laws;
mod leaves;
mod lists;
mod queries;
mod spellings;
mod statements;
mod writer;

pub use laws::{canonical_is_one, canonical_is_read, statements_are_canonical};
pub use statements::print;

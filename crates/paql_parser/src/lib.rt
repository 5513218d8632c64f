//! The parser of PaQL: from the bytes of a statement to its tree.
#![tactic(auto)]

mod aggregates;
mod changes;
mod fault;
mod parsing;
mod query;
mod statements;
mod tables;

pub use fault::ParseFault;
pub use parsing::{one_tree, parse};

//! The trees of PaQL's statements. What a tree means is said where it is used.
#![tactic(auto)]

pub mod aggregates;
pub mod conditions;
pub mod queries;
pub mod statements;

//! The grammar of PaQL: which tokens spell which tree, and how the tokens of a text are read.
//!
//! `specs/` has the languages, a line of the grammar each, and beside them the readings that the
//! code of a parser follows. `proofs/` has one law for each line: its reading is exact for it.
//! There is no parser here.
#![tactic(auto)]

mod laws;

pub use laws::statements_are_read;

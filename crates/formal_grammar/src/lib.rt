//! Grammars as languages, parsers as functions on lists, and what makes the one exact for the
//! other.
//!
//! A language is a relation between lists of tokens and values, and a line of a grammar is a `do`
//! block of such relations (`specs/Lang.antt`). A parser is read as a function on lists in the same
//! words (`specs/Parse.antt`). `IsRule` says that the function takes exactly the texts of the
//! language, and stops at the first token with which no text agrees (`specs/Exact.antt`); for each
//! way to put lines together `proofs/` has one law that keeps it. What a caller of a parser is told
//! is in `specs/Fault.antt`. `sample` is a small grammar that goes the whole way.
#![tactic(auto)]

pub mod laws;
pub mod sample;
pub mod stop;

pub use stop::{ReadError, Why};

#[cfg(test)]
mod tests;

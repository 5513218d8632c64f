//! A cursor over the tokens of a statement, and what is read of it everywhere: names, numbers,
//! literals, columns and conditions.
//!
//! Each function reads the start of a `Source` and answers what it has read and the tokens after
//! it. It stops with the number of tokens that are left from the first one that cannot be there
//! on, or says that memory ran out.
#![tactic(auto)]

mod bytes;
mod conditions;
mod leaves;
mod numbers;
mod source;

pub use conditions::condition;
pub use leaves::{column, comparison, lit, lits, signed};
pub use source::{Source, name, number, sees, take, whole};

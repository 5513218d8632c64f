//! A checker of certificates that shares no code with the search: only problems, boxes, bounds and trees.
#![tactic(auto)]

mod answer;
mod checking;
mod judging;
mod laws;
mod walk;

pub use answer::{CheckAnswer, Reason};
pub use checking::{check, check_nodes};
pub use laws::first_fault_is_one;

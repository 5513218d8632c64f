//! From a bound query and the rows of its table to the reply that answers it, and what is kept of it.
#![tactic(auto)]

mod answering;
mod kept;
mod laws;
mod showing;

pub use answering::{Answered, answer};
pub use kept::Kept;
pub use laws::answers_are_written;

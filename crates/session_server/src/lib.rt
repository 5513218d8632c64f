//! A session over a source and a sink: its bytes are read, its statements are answered, and its replies are written. And
//! the check of a certificate, which comes after a script.
#![tactic(auto)]

mod checking;
mod reading;
mod serve;
mod streams;

pub use checking::{CheckEnd, check_answer};
pub use serve::serve_session;

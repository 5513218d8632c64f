//! A session's bytes cut into statements and bodies, and the replies that answer them.
#![tactic(auto)]

pub mod answers;
mod framer;
pub mod laws;
mod names;
pub mod refusals;
mod replies;
mod scan;

pub use framer::{Awaited, Body, Framed, Framer, MAX_BODY};
pub use refusals::{Refusal, memory_line, not_built_line, refusal_reply};
pub use replies::{Field, Member, Reply, reply_bytes};
pub use scan::MAX_FRAME;

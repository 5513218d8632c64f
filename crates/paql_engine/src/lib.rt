//! A session without input and output: bytes go in, and wishes come out.
#![tactic(auto)]

mod accepted;
mod asking;
mod changing;
mod ending;
mod laws;
mod loading;
mod machine;
mod owed;
mod preparing;
mod refused;
mod session;
mod text;

pub use accepted::Accepted;
pub use ending::{MAX_BYTES, MAX_READ, SessionEnd};
pub use laws::{blank_is_tokenless, longer_history, most_bytes, nobody_else, refused_alike};
pub use machine::{Machine, Wish};
pub use preparing::{PrepareFault, Prepared, prepare};
pub use session::{Answer, Session};
pub use text::Text;

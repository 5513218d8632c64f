//! The text of certificates: written exactly, read exactly, and refused with the first fault.
#![tactic(auto)]

mod kinds;
mod laws;
mod lines;
mod numbers;
mod reading;
mod value;
mod writing;

pub use laws::{texts_are_apart, wholes_are_read};
pub use reading::{read_cert, read_part};
pub use value::{CertFault, CertText, Claim, Part};
pub use writing::{write_cert, write_lines, write_part};

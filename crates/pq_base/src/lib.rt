//! What every other crate uses: the outside as traits, and numbers as text.
#![tactic(auto)]

mod adapters;
pub mod decimal;
mod memory;
mod outside;
pub mod scaled;
mod sure;

pub use adapters::{OpenGate, ReadSource, WriteSink};
pub use decimal::NumFault;
pub use memory::{MemSink, MemSource};
pub use outside::{Gate, GatePoint, Pull, Push, Sink, Source};
pub use scaled::Scaled;
pub use sure::{SureSink, SureSource};

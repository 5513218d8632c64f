//! Binds queries: names become places of columns, numbers whole units of one scale, and what can't
//! be bound is refused by its first fault.
#![tactic(auto)]

mod conditions;
mod constraints;
mod faults;
mod laws;
mod limits;
mod numbers;
mod queries;
mod row_bounds;
mod scope;
mod sums;

pub use conditions::bind_pred;
pub use faults::{BindFault, Refusal};
pub use laws::rows_can_be_asked;
pub use queries::bind;

#[cfg(test)]
mod tests;

//! What a certificate's text says of a query over the rows of its table, judged without any search.
#![tactic(auto)]

mod judging;
mod laws;
mod lines;
mod packages;
mod verdict;

pub use judging::{judge_answer, judge_text};
pub use laws::valid_shows;
pub use verdict::{BadText, Verdict};

#[cfg(test)]
mod tests;

//! The board that the threads of one search share: the best value that was offered, and the numbers of the
//! nodes that are drawn. None waits for another.
#![tactic(auto)]

mod board;
mod laws;
mod view;

pub use board::{Board, BoardSeat};
pub use laws::{draws_fit_the_budget, none_is_no_offer, ranks_follow_values, top_is_the_best};
pub use view::BoardView;

#[cfg(test)]
mod tests;

//! Cuts the text of a statement into tokens.
#![tactic(auto)]

mod cuts;
mod gaps;
mod lexer;
mod vocabulary;

pub use cuts::word_kind;
pub use lexer::{LexFault, Token, no_cut, one_cut, tokens};
pub use vocabulary::{KEYWORDS, Kind};

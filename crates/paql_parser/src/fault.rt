//! Why a text is no statement.

use thiserror::Error;

/// Why a text is no statement. Places are those of bytes.
#[derive(Clone, Copy, Debug, PartialEq, Eq, Error)]
pub enum ParseFault {
    /// No token begins at this place.
    #[error("no token begins at {0}")]
    Lex(usize),
    /// With the token at this place, or with the end there, the tokens begin no statement.
    #[error("the token at {0} cannot stand there")]
    Syntax(usize),
    /// The bracket or NOT at this place would be the 65th open one of its condition.
    #[error("the token at {0} nests too deeply")]
    Deep(usize),
    #[error("out of memory")]
    Memory,
}

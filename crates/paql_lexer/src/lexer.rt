//! All tokens of a statement's text.
ghost use Rattle.std.specs.Prelude.{MatchResult};
ghost use Rattle.paql_lexer.specs.Tokens.{IsTokens, HasFault, OneCut, NoCut};

use crate::cuts::token_at;
use crate::gaps::skip_gap;
use crate::vocabulary::Kind;
use std::alloc::Global;
use thiserror::Error;

/// A token, and the places in the text between which its bytes are.
#[derive(Clone, Copy, Debug, PartialEq, Eq)]
pub struct Token {
    pub kind: Kind,
    /// The place of its first byte.
    pub start: usize,
    /// The place after its last byte.
    pub end: usize,
}

/// Why a text has no list of tokens.
#[derive(Clone, Copy, Debug, PartialEq, Eq, Error)]
pub enum LexFault {
    /// No token begins at this place, and no token, space or comment before it reaches there.
    #[error("no token begins at {0}")]
    Lex(usize),
    #[error("out of memory")]
    Memory,
}

/// How many bytes a token mostly takes, with the gap before it.
const BYTES_OF_A_TOKEN: usize = 4;

/// The tokens of a text, without space and comments.
pub fn tokens(alloc: Global, text: &[u8]) -> Result<Vec<Token>, LexFault>
    ensures { MatchResult result (λ tokens. IsTokens text.now tokens.items) (HasFault text.now) }
{
    let Ok(mut tokens) = Vec::with_capacity(alloc, text.len() / BYTES_OF_A_TOKEN) else {
        return Err(LexFault::Memory);
    };
    let mut rest = skip_gap(text);
    while !rest.is_empty() {
        let start = text.len() - rest.len();
        let Some((kind, len)) = token_at(rest) else {
            return Err(LexFault::Lex(start));
        };
        let token = Token {
            kind,
            start,
            end: start + len,
        };
        if tokens.push(token).is_err() {
            return Err(LexFault::Memory);
        }
        let (_, behind) = rest.split_at(len);
        rest = skip_gap(behind);
    }
    Ok(tokens)
}

/// A text has at most one list of tokens.
pub fn one_cut()
    ensures { OneCut }
{}

/// A text with a fault has no list of tokens, and no other fault.
pub fn no_cut()
    ensures { NoCut }
{}

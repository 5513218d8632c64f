//! From the bytes of a statement to its tree, or to the place of its fault.
ghost use Rattle.std.specs.Prelude.{◌≡◌, ◌-◌, [], Some, None, length, MatchResult};
ghost use Rattle.paql_lexer.specs.Tokens.{IsTokens};
ghost use Rattle.paql_grammar.specs.Texts.{Spells, OneTree, place_of};
ghost use Rattle.paql_parser.specs.Answers.{Answers, AnswersTokens};

use crate::fault::ParseFault;
use crate::statements::whole;
use formal_grammar::{ReadError, Why};
use paql_ast::statements::Statement;
use paql_lexer::{LexFault, Token, tokens};
use paql_reader::Source;
use std::alloc::Global;

/// The statement that a text spells, or nothing where the text has no token. At most 64 brackets
/// and NOTs of a condition may be open at one place. A fault of the tokens comes first; faults of
/// syntax are judged without the limit.
pub fn parse(alloc: Global, text: &[u8]) -> Result<Option<Statement>, ParseFault>
    // The one statement that the text spells, or that it has no token, or the fault and its place.
    ensures answer { Answers text.now result }
    // What is spelled is found, unless memory runs out.
    ensures complete { (t : _) → Spells 64 text.now t
        → MatchResult result (λ found. found ≡ Some t) (λ e. e ≡ ParseFault.Memory) }
    // So is that there is no token.
    ensures empty { IsTokens text.now []
        → MatchResult result (λ found. found ≡ None) (λ e. e ≡ ParseFault.Memory) }
{
    answer(alloc, text)
}

/// A law: a text spells one statement at most, whatever the depth.
pub fn one_tree()
    ensures { OneTree }
{}

/// The place of the token with which so many are left, or of the end.
fn place(text: &[u8], tokens: &[Token], left: usize) -> usize
    ensures { result ≡ place_of text.now tokens.now (length tokens.now - left) }
{
    match tokens.get(tokens.len().saturating_sub(left)) {
        Some(token) => token.start,
        None => text.len(),
    }
}

/// The statement that the tokens of a text spell.
fn parse_tokens(alloc: Global, text: &[u8], tokens: &[Token]) -> Result<Statement, ParseFault>
    ensures { AnswersTokens text.now tokens.now result }
{
    match whole(alloc, Source { text, tokens }) {
        Ok(statement) => Ok(statement),
        Err(ReadError::Memory) => Err(ParseFault::Memory),
        Err(ReadError::Stopped(Why::Syntax, left)) => {
            Err(ParseFault::Syntax(place(text, tokens, left)))
        }
        Err(ReadError::Stopped(Why::Deep, left)) => {
            Err(ParseFault::Deep(place(text, tokens, left)))
        }
    }
}

fn answer(alloc: Global, text: &[u8]) -> Result<Option<Statement>, ParseFault>
    ensures { Answers text.now result }
{
    let tokens = match tokens(alloc, text) {
        Ok(tokens) => tokens,
        Err(LexFault::Lex(at)) => return Err(ParseFault::Lex(at)),
        Err(LexFault::Memory) => return Err(ParseFault::Memory),
    };
    if tokens.is_empty() {
        return Ok(None);
    }
    match parse_tokens(alloc, text, tokens.as_slice()) {
        Ok(statement) => Ok(Some(statement)),
        Err(fault) => Err(fault),
    }
}

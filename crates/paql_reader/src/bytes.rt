//! The bytes of a token, and what is in them.
ghost use Rattle.std.specs.Prelude.{◌≡◌, IfOk, MatchOption, Some, None, false};
ghost use Rattle.paql_grammar.specs.Lexemes as lexemes;
ghost use Rattle.paql_grammar.specs.Lexemes.{lexeme};

use paql_lexer::{Kind, Token};
use schema_types::Text;
use sqlite_items::Items;
use std::alloc::{AllocError, Global};

/// The bytes between the token's places.
#[inline(always)]
pub(crate) fn bytes_of(text: &[u8], token: Token) -> &[u8]
    ensures { result.now ≡ (lexeme text.now token).bytes }
{
    let (_, rest) = text.split_at(token.start.min(text.len()));
    let (bytes, _) = rest.split_at(token.end.saturating_sub(token.start).min(rest.len()));
    bytes
}

/// What is between the first byte and the last.
#[inline(always)]
fn inside(bytes: &[u8]) -> &[u8]
    ensures { result.now ≡ lexemes.inside bytes.now }
{
    let (_, rest) = bytes.split_at(bytes.len().min(1));
    let (inner, _) = rest.split_at(bytes.len().saturating_sub(2));
    inner
}

/// The bytes of a name.
#[inline(always)]
pub(crate) fn name_of(text: &[u8], token: Token) -> Option<&[u8]>
    ensures { MatchOption result (lexemes.name_of (lexeme text.now token) ≡ None)
        (λ name. lexemes.name_of (lexeme text.now token) ≡ Some name.now) }
{
    if token.kind == Kind::Name {
        return Some(bytes_of(text, token));
    }
    if token.kind == Kind::QuotedName {
        return Some(inside(bytes_of(text, token)));
    }
    None
}

/// The bytes without each quote that a quote comes before.
fn undoubled(alloc: Global, bytes: &[u8]) -> Result<Text, AllocError>
    ensures { IfOk result (λ content. content ≡ lexemes.undoubled false bytes.now) }
{
    let mut content = Items::from_vec(Vec::with_capacity(alloc, bytes.len())?);
    let mut twin = false;
    for byte in bytes {
        if twin {
            twin = false;
            continue;
        }
        content.push(*byte)?;
        twin = *byte == b'\'';
    }
    Ok(content)
}

/// The content of a text, from its bytes.
pub(crate) fn content_in(alloc: Global, bytes: &[u8]) -> Result<Text, AllocError>
    ensures { IfOk result
        (λ content. content ≡ lexemes.undoubled false (lexemes.inside bytes.now)) }
{
    undoubled(alloc, inside(bytes))
}

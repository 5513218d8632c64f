//! The tokens that are still to be read, and the steps that read one of them.
ghost use Rattle.std.specs.Prelude.{◌≡◌};
ghost use Rattle.formal_grammar.specs.Parse as parse;
ghost use Rattle.formal_grammar.specs.Parse.{Gives, accept, this};
ghost use Rattle.paql_grammar.specs.Lexemes as lexemes;
ghost use Rattle.paql_grammar.specs.Lexemes.{is};
ghost use Rattle.paql_reader.specs.Sources.{Follows, left};

use crate::bytes::{bytes_of, content_in, name_of};
use crate::numbers::{number_in, whole_in};
use formal_grammar::{ReadError, Why};
use paql_lexer::{Kind, Token};
use pq_base::Scaled;
use schema_types::Text;
use sqlite_items::Items;
use std::alloc::Global;

/// The tokens that are still to be read, beside the text of the whole statement.
#[derive(Clone, Copy)]
pub struct Source<'a> {
    /// The bytes of the whole statement, in which the places of the tokens are counted.
    pub text: &'a [u8],
    /// The tokens from here to the end of the statement.
    pub tokens: &'a [Token],
}

/// Whether a token of this kind comes first.
#[inline(always)]
pub fn sees(source: Source<'_>, kind: Kind) -> bool
    ensures { result ≡ parse.sees (is kind) (left source.entry) }
{
    match source.tokens {
        [first, ..] => first.kind == kind,
        [] => false,
    }
}

/// Takes a token of this kind.
#[inline(always)]
pub fn take(source: Source<'_>, kind: Kind) -> Result<Source<'_>, ReadError>
    ensures { Gives (λ x. (tt, left x)) result (accept (this (is kind)) (left source.entry)) }
{
    match source.tokens {
        [first, rest @ ..] if first.kind == kind => Ok(Source {
            text: source.text,
            tokens: rest,
        }),
        _ => Err(ReadError::Stopped(Why::Syntax, source.tokens.len())),
    }
}

/// A name, quoted or not.
#[inline(always)]
pub fn name(alloc: Global, source: Source<'_>) -> Result<(Text, Source<'_>), ReadError>
    ensures { Follows result (accept lexemes.name_of) source.entry }
{
    let [first, rest @ ..] = source.tokens else {
        return Err(ReadError::Stopped(Why::Syntax, 0));
    };
    let Some(bytes) = name_of(source.text, *first) else {
        return Err(ReadError::Stopped(Why::Syntax, source.tokens.len()));
    };
    let name = Items::from_slice(alloc, bytes)?;
    let after = Source {
        text: source.text,
        tokens: rest,
    };
    Ok((name, after))
}

/// A text in single quotes, as its content.
#[inline(always)]
pub(crate) fn content(alloc: Global, source: Source<'_>) -> Result<(Text, Source<'_>), ReadError>
    ensures { Follows result (accept lexemes.content_of) source.entry }
{
    match source.tokens {
        [first, rest @ ..] if first.kind == Kind::Text => {
            let content = content_in(alloc, bytes_of(source.text, *first))?;
            let after = Source {
                text: source.text,
                tokens: rest,
            };
            Ok((content, after))
        }
        _ => Err(ReadError::Stopped(Why::Syntax, source.tokens.len())),
    }
}

/// A number with a minus before it that was read, or without one.
#[inline(always)]
pub fn number(minus: bool, source: Source<'_>) -> Result<(Scaled, Source<'_>), ReadError>
    ensures { Follows result (accept (lexemes.number_of minus)) source.entry }
{
    match source.tokens {
        [first, rest @ ..] if first.kind == Kind::Number => {
            let Some(number) = number_in(minus, bytes_of(source.text, *first)) else {
                return Err(ReadError::Stopped(Why::Syntax, source.tokens.len()));
            };
            let after = Source {
                text: source.text,
                tokens: rest,
            };
            Ok((number, after))
        }
        _ => Err(ReadError::Stopped(Why::Syntax, source.tokens.len())),
    }
}

/// A number without a point and with at most 18 digits.
#[inline(always)]
pub fn whole(source: Source<'_>) -> Result<(u64, Source<'_>), ReadError>
    ensures { Follows result (accept lexemes.whole_of) source.entry }
{
    match source.tokens {
        [first, rest @ ..] if first.kind == Kind::Number => {
            let Some(number) = whole_in(bytes_of(source.text, *first)) else {
                return Err(ReadError::Stopped(Why::Syntax, source.tokens.len()));
            };
            let after = Source {
                text: source.text,
                tokens: rest,
            };
            Ok((number, after))
        }
        _ => Err(ReadError::Stopped(Why::Syntax, source.tokens.len())),
    }
}

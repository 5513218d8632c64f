//! The leaves that all statements are made of: comparisons, numbers, literals and columns.
ghost use Rattle.std.specs.Prelude.{◌≡◌};
ghost use Rattle.paql_grammar.specs.Conditions as grammar;
ghost use Rattle.paql_grammar.specs.ConditionReading as read;
ghost use Rattle.paql_reader.specs.Sources.{Follows};

use crate::source::{Source, content, name, number, sees, take};
use formal_grammar::{ReadError, Why};
use paql_ast::conditions::{CmpOp, ColumnName};
use paql_lexer::Kind;
use pq_base::Scaled;
use schema_types::{Lit, Text};
use sqlite_items::Items;
use std::alloc::Global;

/// The comparison that a kind of token is: any but `<>`.
pub(crate) fn comparison_in(kind: Kind) -> Option<CmpOp>
    ensures { result ≡ grammar.comparison_in kind }
{
    match kind {
        Kind::Equal => Some(CmpOp::Eq),
        Kind::Less => Some(CmpOp::Lt),
        Kind::LessOrEqual => Some(CmpOp::Le),
        Kind::Greater => Some(CmpOp::Gt),
        Kind::GreaterOrEqual => Some(CmpOp::Ge),
        _ => None,
    }
}

/// A comparison that is no `<>`.
#[tactic(auto, unfolding(paql_grammar::specs::ConditionReading::comparison))]
pub fn comparison(source: Source<'_>) -> Result<(CmpOp, Source<'_>), ReadError>
    ensures { Follows result read.comparison source.entry }
{
    let [first, rest @ ..] = source.tokens else {
        return Err(ReadError::Stopped(Why::Syntax, 0));
    };
    let Some(op) = comparison_in(first.kind) else {
        return Err(ReadError::Stopped(Why::Syntax, source.tokens.len()));
    };
    let after = Source {
        text: source.text,
        tokens: rest,
    };
    Ok((op, after))
}

/// A number, with a minus before it or not.
#[inline(always)]
#[tactic(auto, unfolding(paql_grammar::specs::ConditionReading::signed))]
pub fn signed(source: Source<'_>) -> Result<(Scaled, Source<'_>), ReadError>
    ensures { Follows result read.signed source.entry }
{
    if !sees(source, Kind::Minus) {
        return number(false, source);
    }
    let rest = take(source, Kind::Minus)?;
    number(true, rest)
}

#[inline(always)]
#[tactic(auto, unfolding(paql_grammar::specs::ConditionReading::numeral))]
fn numeral(source: Source<'_>) -> Result<(Lit, Source<'_>), ReadError>
    ensures { Follows result read.numeral source.entry }
{
    let (number, rest) = signed(source)?;
    Ok((Lit::Num(number), rest))
}

#[inline(always)]
#[tactic(auto, unfolding(paql_grammar::specs::ConditionReading::quoted))]
fn quoted(alloc: Global, source: Source<'_>) -> Result<(Lit, Source<'_>), ReadError>
    ensures { Follows result read.quoted source.entry }
{
    let (bytes, rest) = content(alloc, source)?;
    Ok((Lit::Text(bytes), rest))
}

/// A number or a text.
#[inline(always)]
#[tactic(auto, unfolding(paql_grammar::specs::ConditionReading::lit))]
pub fn lit(alloc: Global, source: Source<'_>) -> Result<(Lit, Source<'_>), ReadError>
    ensures { Follows result read.lit source.entry }
{
    if sees(source, Kind::Text) {
        return quoted(alloc, source);
    }
    numeral(source)
}

#[inline(always)]
#[tactic(auto, unfolding(paql_grammar::specs::ConditionReading::suffix))]
fn suffix(alloc: Global, source: Source<'_>) -> Result<(Text, Source<'_>), ReadError>
    ensures { Follows result read.suffix source.entry }
{
    let rest = take(source, Kind::Dot)?;
    name(alloc, rest)
}

/// A column, with a name before it or not.
#[inline(always)]
#[tactic(auto, unfolding(paql_grammar::specs::ConditionReading::column))]
pub fn column(alloc: Global, source: Source<'_>) -> Result<(ColumnName, Source<'_>), ReadError>
    ensures { Follows result read.column source.entry }
{
    let (first, rest) = name(alloc, source)?;
    if !sees(rest, Kind::Dot) {
        let column = ColumnName {
            prefix: None,
            name: first,
        };
        return Ok((column, rest));
    }
    let (second, rest) = suffix(alloc, rest)?;
    let column = ColumnName {
        prefix: Some(first),
        name: second,
    };
    Ok((column, rest))
}

#[inline(always)]
fn next_lit(alloc: Global, source: Source<'_>) -> Result<(Lit, Source<'_>), ReadError>
    ensures { Follows result read.next_lit source.entry }
{
    let rest = take(source, Kind::Comma)?;
    lit(alloc, rest)
}

/// Literals with commas between them, in a list that has room for `width` of them from the start.
#[inline(always)]
#[tactic(auto, unfolding(paql_grammar::specs::ConditionReading::lits_in))]
pub fn lits(
    alloc: Global,
    width: usize,
    source: Source<'_>,
) -> Result<(Items<Lit>, Source<'_>), ReadError>
    ensures { Follows result read.lits_in source.entry }
{
    let (first, mut rest) = lit(alloc, source)?;
    let mut items = Items::from_vec(Vec::with_capacity(alloc, width)?);
    items.push(first)?;
    'parts: while sees(rest, Kind::Comma) {
        let (next, after) = next_lit(alloc, rest)?;
        items.push(next)?;
        rest = after;
    }
    Ok((items, rest))
}

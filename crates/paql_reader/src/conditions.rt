//! Conditions on a row: the tests of a column, NOT, AND and OR, and what is in brackets.
ghost use Rattle.std.specs.Prelude.{◌≡◌, ◌++◌, OnOk};
ghost use Rattle.formal_grammar.specs.Parse as parse;
ghost use Rattle.paql_grammar.specs.Lexemes.{among, opens};
ghost use Rattle.paql_grammar.specs.Conditions as grammar;
ghost use Rattle.paql_grammar.specs.ConditionReading as read;
ghost use Rattle.paql_reader.specs.Sources.{Follows, left};

use crate::leaves::{column, comparison_in, lit, lits};
use crate::source::{Source, sees, take};
use formal_grammar::{ReadError, Why};
use paql_ast::conditions::{CmpOp, ColumnName, Operand, Pred};
use paql_lexer::Kind;
use sqlite_items::{Boxed, Items};
use std::alloc::{AllocError, Global};

// ---- the tests of a column

/// The operator that a kind of token is.
fn operator_in(kind: Kind) -> Option<CmpOp>
    ensures { result ≡ grammar.operator_in kind }
{
    match kind {
        Kind::NotEqual => Some(CmpOp::Ne),
        _ => comparison_in(kind),
    }
}

/// A comparison.
#[inline]
#[tactic(auto, unfolding(paql_grammar::specs::ConditionReading::operator))]
fn operator(source: Source<'_>) -> Result<(CmpOp, Source<'_>), ReadError>
    ensures { Follows result read.operator source.entry }
{
    let [first, rest @ ..] = source.tokens else {
        return Err(ReadError::Stopped(Why::Syntax, 0));
    };
    let Some(op) = operator_in(first.kind) else {
        return Err(ReadError::Stopped(Why::Syntax, source.tokens.len()));
    };
    let after = Source {
        text: source.text,
        tokens: rest,
    };
    Ok((op, after))
}

fn sees_name(source: Source<'_>) -> bool
    ensures { result ≡ parse.sees (among read.name_kinds) (left source.entry) }
{
    sees(source, Kind::Name) || sees(source, Kind::QuotedName)
}

#[inline]
#[tactic(auto, unfolding(paql_grammar::specs::ConditionReading::column_operand))]
fn column_operand(alloc: Global, source: Source<'_>) -> Result<(Operand, Source<'_>), ReadError>
    ensures { Follows result read.column_operand source.entry }
{
    let (column, rest) = column(alloc, source)?;
    Ok((Operand::Column(column), rest))
}

#[inline]
#[tactic(auto, unfolding(paql_grammar::specs::ConditionReading::literal_operand))]
fn literal_operand(alloc: Global, source: Source<'_>) -> Result<(Operand, Source<'_>), ReadError>
    ensures { Follows result read.literal_operand source.entry }
{
    let (lit, rest) = lit(alloc, source)?;
    Ok((Operand::Lit(lit), rest))
}

/// What a column is compared with.
#[inline]
#[tactic(auto, unfolding(paql_grammar::specs::ConditionReading::operand))]
fn operand(alloc: Global, source: Source<'_>) -> Result<(Operand, Source<'_>), ReadError>
    ensures { Follows result read.operand source.entry }
{
    if sees_name(source) {
        return column_operand(alloc, source);
    }
    literal_operand(alloc, source)
}

#[inline]
#[tactic(auto, unfolding(paql_grammar::specs::ConditionReading::compared))]
fn compared(
    alloc: Global,
    of: ColumnName,
    source: Source<'_>,
) -> Result<(Pred, Source<'_>), ReadError>
    ensures { Follows result (read.compared of) source.entry }
{
    let (op, rest) = operator(source)?;
    let (right, rest) = operand(alloc, rest)?;
    let test = Pred::Compare {
        column: of,
        op,
        right,
    };
    Ok((test, rest))
}

#[tactic(auto, unfolding(paql_grammar::specs::ConditionReading::ranged))]
fn ranged(
    alloc: Global,
    of: ColumnName,
    source: Source<'_>,
) -> Result<(Pred, Source<'_>), ReadError>
    ensures { Follows result (read.ranged of) source.entry }
{
    let rest = take(source, Kind::Between)?;
    let (low, rest) = lit(alloc, rest)?;
    let rest = take(rest, Kind::And)?;
    let (high, rest) = lit(alloc, rest)?;
    Ok((
        Pred::Between {
            column: of,
            low,
            high,
        },
        rest,
    ))
}

#[tactic(auto, unfolding(paql_grammar::specs::ConditionReading::listed_in))]
fn listed_in(
    alloc: Global,
    of: ColumnName,
    source: Source<'_>,
) -> Result<(Pred, Source<'_>), ReadError>
    ensures { Follows result (read.listed_in of) source.entry }
{
    let rest = take(source, Kind::In)?;
    let rest = take(rest, Kind::LeftParen)?;
    let (list, rest) = lits(alloc, 0, rest)?;
    let rest = take(rest, Kind::RightParen)?;
    Ok((Pred::In { column: of, list }, rest))
}

fn sees_operator(source: Source<'_>) -> bool
    ensures { result ≡ parse.sees (among read.operator_kinds) (left source.entry) }
{
    match source.tokens {
        [first, ..] => matches!(
            first.kind,
            Kind::Equal
                | Kind::NotEqual
                | Kind::Less
                | Kind::LessOrEqual
                | Kind::Greater
                | Kind::GreaterOrEqual
        ),
        [] => false,
    }
}

#[inline]
fn test(alloc: Global, of: ColumnName, source: Source<'_>) -> Result<(Pred, Source<'_>), ReadError>
    ensures { Follows result (read.test of) source.entry }
{
    if sees_operator(source) {
        return compared(alloc, of, source);
    }
    if sees(source, Kind::Between) {
        return ranged(alloc, of, source);
    }
    listed_in(alloc, of, source)
}

/// A column and its test.
#[inline]
#[tactic(auto, unfolding(paql_grammar::specs::ConditionReading::leaf))]
fn leaf(alloc: Global, source: Source<'_>) -> Result<(Pred, Source<'_>), ReadError>
    ensures { Follows result read.leaf source.entry }
{
    let (of, rest) = column(alloc, source)?;
    test(alloc, of, rest)
}

// ---- NOT, AND and OR

/// How many parts an AND or an OR has at least.
const FEWEST_PARTS: usize = 2;

/// Whether a bracket or a NOT comes first.
fn sees_opening(source: Source<'_>) -> bool
    ensures { result ≡ parse.sees opens (left source.entry) }
{
    sees(source, Kind::LeftParen) || sees(source, Kind::Not)
}

/// Appends the parts of an AND, or the condition itself.
fn append_and(items: &mut Items<Pred>, pred: Pred) -> Result<(), AllocError>
    ensures { OnOk result (items.new ≡ items.old ++ grammar.and_parts pred) }
{
    match pred {
        Pred::And(parts) => items.append(parts),
        other => items.push(other),
    }
}

/// Appends the parts of an OR, or the condition itself.
fn append_or(items: &mut Items<Pred>, pred: Pred) -> Result<(), AllocError>
    ensures { OnOk result (items.new ≡ items.old ++ grammar.or_parts pred) }
{
    match pred {
        Pred::Or(parts) => items.append(parts),
        other => items.push(other),
    }
}

/// A condition with at most so many brackets and NOTs open at one place.
#[cycle(conditions)]
#[tactic(auto, unfolding(paql_grammar::specs::ConditionReading::joined))]
pub fn condition(
    alloc: Global,
    depth: u32,
    source: Source<'_>,
) -> Result<(Pred, Source<'_>), ReadError>
    ensures { Follows result (read.pred depth) source.entry }
{
    let (first, rest) = both(alloc, depth, source)?;
    or_rest(alloc, depth, first, rest)
}

/// The first part, and the others where an OR comes after it.
#[cycle(conditions)]
#[tactic(auto, unfolding(paql_grammar::specs::ConditionReading::or_rest))]
fn or_rest(
    alloc: Global,
    depth: u32,
    first: Pred,
    source: Source<'_>,
) -> Result<(Pred, Source<'_>), ReadError>
    ensures { Follows result (read.or_rest first (read.both (read.single depth))) source.entry }
{
    if !sees(source, Kind::Or) {
        return Ok((first, source));
    }
    let (parts, rest) = more_or(alloc, depth, first, source)?;
    Ok((Pred::Or(parts), rest))
}

#[cycle(conditions)]
fn more_or(
    alloc: Global,
    depth: u32,
    first: Pred,
    source: Source<'_>,
) -> Result<(Items<Pred>, Source<'_>), ReadError>
    ensures { Follows result (read.more_or first (read.both (read.single depth))) source.entry }
{
    let mut rest = source;
    let mut items = Items::from_vec(Vec::with_capacity(alloc, FEWEST_PARTS)?);
    append_or(&mut items, first)?;
    'parts: while sees(rest, Kind::Or) {
        let (next, after) = next_or(alloc, depth, rest)?;
        append_or(&mut items, next)?;
        rest = after;
    }
    Ok((items, rest))
}

#[cycle(conditions)]
fn next_or(alloc: Global, depth: u32, source: Source<'_>) -> Result<(Pred, Source<'_>), ReadError>
    ensures { Follows result (read.next_or (read.both (read.single depth))) source.entry }
{
    let rest = take(source, Kind::Or)?;
    both(alloc, depth, rest)
}

#[cycle(conditions)]
#[tactic(auto, unfolding(paql_grammar::specs::ConditionReading::both))]
fn both(alloc: Global, depth: u32, source: Source<'_>) -> Result<(Pred, Source<'_>), ReadError>
    ensures { Follows result (read.both (read.single depth)) source.entry }
{
    let (first, rest) = single(alloc, depth, source)?;
    and_rest(alloc, depth, first, rest)
}

/// The first part, and the others where an AND comes after it.
#[cycle(conditions)]
#[tactic(auto, unfolding(paql_grammar::specs::ConditionReading::and_rest))]
fn and_rest(
    alloc: Global,
    depth: u32,
    first: Pred,
    source: Source<'_>,
) -> Result<(Pred, Source<'_>), ReadError>
    ensures { Follows result (read.and_rest first (read.single depth)) source.entry }
{
    if !sees(source, Kind::And) {
        return Ok((first, source));
    }
    let (parts, rest) = more_and(alloc, depth, first, source)?;
    Ok((Pred::And(parts), rest))
}

#[cycle(conditions)]
fn more_and(
    alloc: Global,
    depth: u32,
    first: Pred,
    source: Source<'_>,
) -> Result<(Items<Pred>, Source<'_>), ReadError>
    ensures { Follows result (read.more_and first (read.single depth)) source.entry }
{
    let mut rest = source;
    let mut items = Items::from_vec(Vec::with_capacity(alloc, FEWEST_PARTS)?);
    append_and(&mut items, first)?;
    'parts: while sees(rest, Kind::And) {
        let (next, after) = next_and(alloc, depth, rest)?;
        append_and(&mut items, next)?;
        rest = after;
    }
    Ok((items, rest))
}

#[cycle(conditions)]
fn next_and(alloc: Global, depth: u32, source: Source<'_>) -> Result<(Pred, Source<'_>), ReadError>
    ensures { Follows result (read.next_and (read.single depth)) source.entry }
{
    let rest = take(source, Kind::And)?;
    single(alloc, depth, rest)
}

#[cycle(conditions)]
#[tactic(auto, unfolding(paql_grammar::specs::ConditionReading::single))]
fn single(alloc: Global, depth: u32, source: Source<'_>) -> Result<(Pred, Source<'_>), ReadError>
    ensures { Follows result (read.single depth) source.entry }
{
    if !sees_opening(source) {
        return leaf(alloc, source);
    }
    if depth == 0 {
        return Err(ReadError::Stopped(Why::Deep, source.tokens.len()));
    }
    opened(alloc, depth - 1, source)
}

#[cycle(conditions)]
#[tactic(auto, unfolding(paql_grammar::specs::ConditionReading::opened))]
fn opened(alloc: Global, depth: u32, source: Source<'_>) -> Result<(Pred, Source<'_>), ReadError>
    ensures { Follows result (read.opened (read.single depth)) source.entry }
{
    if sees(source, Kind::Not) {
        return negation(alloc, depth, source);
    }
    bracketed(alloc, depth, source)
}

#[cycle(conditions)]
#[tactic(auto, unfolding(paql_grammar::specs::ConditionReading::negation))]
fn negation(alloc: Global, depth: u32, source: Source<'_>) -> Result<(Pred, Source<'_>), ReadError>
    ensures { Follows result (read.negation (read.single depth)) source.entry }
{
    let rest = take(source, Kind::Not)?;
    let (part, rest) = single(alloc, depth, rest)?;
    Ok((Pred::Not(Boxed::new(alloc, part)?), rest))
}

#[cycle(conditions)]
#[tactic(auto, unfolding(paql_grammar::specs::ConditionReading::bracketed))]
fn bracketed(alloc: Global, depth: u32, source: Source<'_>) -> Result<(Pred, Source<'_>), ReadError>
    ensures { Follows result (read.bracketed (read.pred depth)) source.entry }
{
    let rest = take(source, Kind::LeftParen)?;
    let (inner, rest) = condition(alloc, depth, rest)?;
    let rest = take(rest, Kind::RightParen)?;
    Ok((inner, rest))
}

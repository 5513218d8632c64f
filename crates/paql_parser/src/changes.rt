//! UPDATE and DELETE.
ghost use Rattle.std.specs.Prelude.{◌≡◌};
ghost use Rattle.formal_grammar.specs.Parse as parse;
ghost use Rattle.paql_lexer.specs.declared.vocabulary.Kind.TheVariants as kinds;
ghost use Rattle.paql_grammar.specs.Lexemes.{is};
ghost use Rattle.paql_grammar.specs.StatementReading as read;
ghost use Rattle.paql_reader.specs.Sources.{Follows};

use formal_grammar::ReadError;
use paql_ast::conditions::Pred;
use paql_ast::statements::Statement;
use paql_lexer::Kind;
use paql_reader::{Source, condition, lit, name, sees, take};
use schema_types::{Lit, Text};
use sqlite_items::Items;
use std::alloc::Global;

#[tactic(auto, unfolding(paql_grammar::specs::StatementReading::assignment))]
fn assignment(alloc: Global, source: Source<'_>) -> Result<((Text, Lit), Source<'_>), ReadError>
    ensures { Follows result read.assignment source.entry }
{
    let (column, rest) = name(alloc, source)?;
    let rest = take(rest, Kind::Equal)?;
    let (value, rest) = lit(alloc, rest)?;
    Ok(((column, value), rest))
}

fn next_assignment(
    alloc: Global,
    source: Source<'_>,
) -> Result<((Text, Lit), Source<'_>), ReadError>
    ensures { Follows result read.next_assignment source.entry }
{
    let rest = take(source, Kind::Comma)?;
    assignment(alloc, rest)
}

#[tactic(auto, unfolding(paql_grammar::specs::StatementReading::assignments))]
fn assignments(
    alloc: Global,
    source: Source<'_>,
) -> Result<(Items<(Text, Lit)>, Source<'_>), ReadError>
    ensures { Follows result read.assignments source.entry }
{
    let (first, mut rest) = assignment(alloc, source)?;
    let mut items = Items::new(alloc);
    items.push(first)?;
    'parts: while sees(rest, Kind::Comma) {
        let (next, after) = next_assignment(alloc, rest)?;
        items.push(next)?;
        rest = after;
    }
    Ok((items, rest))
}

#[tactic(auto, unfolding(paql_grammar::specs::StatementReading::filter))]
fn filter(alloc: Global, depth: u32, source: Source<'_>) -> Result<(Pred, Source<'_>), ReadError>
    ensures { Follows result (read.filter depth) source.entry }
{
    let rest = take(source, Kind::Where)?;
    condition(alloc, depth, rest)
}

/// WHERE and its condition, where it is there.
fn filtered(
    alloc: Global,
    depth: u32,
    source: Source<'_>,
) -> Result<(Option<Pred>, Source<'_>), ReadError>
    ensures { Follows result (parse.maybe (is kinds.Where) (read.filter depth)) source.entry }
{
    if !sees(source, Kind::Where) {
        return Ok((None, source));
    }
    let (pred, rest) = filter(alloc, depth, source)?;
    Ok((Some(pred), rest))
}

/// `UPDATE`
#[tactic(auto, unfolding(paql_grammar::specs::StatementReading::update))]
pub(crate) fn update(
    alloc: Global,
    depth: u32,
    source: Source<'_>,
) -> Result<(Statement, Source<'_>), ReadError>
    ensures { Follows result (read.update depth) source.entry }
{
    let rest = take(source, Kind::Update)?;
    let (table, rest) = name(alloc, rest)?;
    let rest = take(rest, Kind::Set)?;
    let (sets, rest) = assignments(alloc, rest)?;
    let (filter, rest) = filtered(alloc, depth, rest)?;
    let statement = Statement::Update {
        table,
        sets,
        filter,
    };
    Ok((statement, rest))
}

/// `DELETE FROM`
#[tactic(auto, unfolding(paql_grammar::specs::StatementReading::delete))]
pub(crate) fn delete(
    alloc: Global,
    depth: u32,
    source: Source<'_>,
) -> Result<(Statement, Source<'_>), ReadError>
    ensures { Follows result (read.delete depth) source.entry }
{
    let rest = take(source, Kind::Delete)?;
    let rest = take(rest, Kind::From)?;
    let (table, rest) = name(alloc, rest)?;
    let (filter, rest) = filtered(alloc, depth, rest)?;
    Ok((Statement::Delete { table, filter }, rest))
}

//! CREATE, INSERT, LOAD, PARTITION and VACUUM.
ghost use Rattle.std.specs.Prelude.{◌≡◌};
ghost use Rattle.paql_grammar.specs.StatementReading as read;
ghost use Rattle.paql_reader.specs.Sources.{Follows};

use formal_grammar::ReadError;
use paql_ast::statements::Statement;
use paql_lexer::Kind;
use paql_reader::{Source, lits, name, number, sees, take, whole};
use schema_types::{Column, Lit, Text};
use sqlite_items::Items;
use std::alloc::Global;

// ---- CREATE

#[tactic(auto, unfolding(paql_grammar::specs::StatementReading::int_kind))]
fn int_kind(source: Source<'_>) -> Result<(schema_types::Kind, Source<'_>), ReadError>
    ensures { Follows result read.int_kind source.entry }
{
    let rest = take(source, Kind::Int)?;
    Ok((schema_types::Kind::Int, rest))
}

#[tactic(auto, unfolding(paql_grammar::specs::StatementReading::dec_kind))]
fn dec_kind(source: Source<'_>) -> Result<(schema_types::Kind, Source<'_>), ReadError>
    ensures { Follows result read.dec_kind source.entry }
{
    let rest = take(source, Kind::Dec)?;
    let rest = take(rest, Kind::LeftParen)?;
    let (scale, rest) = whole(rest)?;
    let rest = take(rest, Kind::RightParen)?;
    Ok((schema_types::Kind::Dec(scale), rest))
}

#[tactic(auto, unfolding(paql_grammar::specs::StatementReading::text_kind))]
fn text_kind(source: Source<'_>) -> Result<(schema_types::Kind, Source<'_>), ReadError>
    ensures { Follows result read.text_kind source.entry }
{
    let rest = take(source, Kind::TextType)?;
    Ok((schema_types::Kind::Text, rest))
}

#[tactic(auto, unfolding(paql_grammar::specs::StatementReading::column_kind))]
fn column_kind(source: Source<'_>) -> Result<(schema_types::Kind, Source<'_>), ReadError>
    ensures { Follows result read.column_kind source.entry }
{
    if sees(source, Kind::Int) {
        return int_kind(source);
    }
    if sees(source, Kind::Dec) {
        return dec_kind(source);
    }
    text_kind(source)
}

#[tactic(auto, unfolding(paql_grammar::specs::StatementReading::defined_column))]
fn defined_column(alloc: Global, source: Source<'_>) -> Result<(Column, Source<'_>), ReadError>
    ensures { Follows result read.defined_column source.entry }
{
    let (name, rest) = name(alloc, source)?;
    let (kind, rest) = column_kind(rest)?;
    Ok((Column { name, kind }, rest))
}

fn next_column(alloc: Global, source: Source<'_>) -> Result<(Column, Source<'_>), ReadError>
    ensures { Follows result read.next_column source.entry }
{
    let rest = take(source, Kind::Comma)?;
    defined_column(alloc, rest)
}

#[tactic(auto, unfolding(paql_grammar::specs::StatementReading::defined_columns))]
fn defined_columns(
    alloc: Global,
    source: Source<'_>,
) -> Result<(Items<Column>, Source<'_>), ReadError>
    ensures { Follows result read.defined_columns source.entry }
{
    let (first, mut rest) = defined_column(alloc, source)?;
    let mut items = Items::new(alloc);
    items.push(first)?;
    'parts: while sees(rest, Kind::Comma) {
        let (next, after) = next_column(alloc, rest)?;
        items.push(next)?;
        rest = after;
    }
    Ok((items, rest))
}

/// `CREATE TABLE`
#[tactic(auto, unfolding(paql_grammar::specs::StatementReading::create))]
pub(crate) fn create(
    alloc: Global,
    source: Source<'_>,
) -> Result<(Statement, Source<'_>), ReadError>
    ensures { Follows result read.create source.entry }
{
    let rest = take(source, Kind::Create)?;
    let rest = take(rest, Kind::Table)?;
    let (table, rest) = name(alloc, rest)?;
    let rest = take(rest, Kind::LeftParen)?;
    let (columns, rest) = defined_columns(alloc, rest)?;
    let rest = take(rest, Kind::RightParen)?;
    Ok((Statement::Create { table, columns }, rest))
}

// ---- INSERT

/// A row. `width` is that of the row before, which is mostly its own.
#[inline(always)]
#[tactic(auto, unfolding(paql_grammar::specs::StatementReading::tuple))]
fn tuple(
    alloc: Global,
    width: usize,
    source: Source<'_>,
) -> Result<(Items<Lit>, Source<'_>), ReadError>
    ensures { Follows result read.tuple source.entry }
{
    let rest = take(source, Kind::LeftParen)?;
    let (row, rest) = lits(alloc, width, rest)?;
    let rest = take(rest, Kind::RightParen)?;
    Ok((row, rest))
}

#[inline(always)]
fn next_tuple(
    alloc: Global,
    width: usize,
    source: Source<'_>,
) -> Result<(Items<Lit>, Source<'_>), ReadError>
    ensures { Follows result read.next_tuple source.entry }
{
    let rest = take(source, Kind::Comma)?;
    tuple(alloc, width, rest)
}

#[tactic(auto, unfolding(paql_grammar::specs::StatementReading::tuples))]
fn tuples(alloc: Global, source: Source<'_>) -> Result<(Items<Items<Lit>>, Source<'_>), ReadError>
    ensures { Follows result read.tuples source.entry }
{
    let (first, mut rest) = tuple(alloc, 0, source)?;
    let mut width = first.len();
    let mut items = Items::new(alloc);
    items.push(first)?;
    'parts: while sees(rest, Kind::Comma) {
        let (next, after) = next_tuple(alloc, width, rest)?;
        width = next.len();
        items.push(next)?;
        rest = after;
    }
    Ok((items, rest))
}

/// `INSERT INTO`
#[tactic(auto, unfolding(paql_grammar::specs::StatementReading::insert))]
pub(crate) fn insert(
    alloc: Global,
    source: Source<'_>,
) -> Result<(Statement, Source<'_>), ReadError>
    ensures { Follows result read.insert source.entry }
{
    let rest = take(source, Kind::Insert)?;
    let rest = take(rest, Kind::Into)?;
    let (table, rest) = name(alloc, rest)?;
    let rest = take(rest, Kind::Values)?;
    let (rows, rest) = tuples(alloc, rest)?;
    Ok((Statement::Insert { table, rows }, rest))
}

// ---- LOAD

/// `LOAD`
#[tactic(auto, unfolding(paql_grammar::specs::StatementReading::load))]
pub(crate) fn load(alloc: Global, source: Source<'_>) -> Result<(Statement, Source<'_>), ReadError>
    ensures { Follows result read.load source.entry }
{
    let rest = take(source, Kind::Load)?;
    let (table, rest) = name(alloc, rest)?;
    let rest = take(rest, Kind::Bytes)?;
    let (bytes, rest) = whole(rest)?;
    Ok((Statement::Load { table, bytes }, rest))
}

// ---- PARTITION and VACUUM

fn next_name(alloc: Global, source: Source<'_>) -> Result<(Text, Source<'_>), ReadError>
    ensures { Follows result read.next_name source.entry }
{
    let rest = take(source, Kind::Comma)?;
    name(alloc, rest)
}

#[tactic(auto, unfolding(paql_grammar::specs::StatementReading::names))]
fn names(alloc: Global, source: Source<'_>) -> Result<(Items<Text>, Source<'_>), ReadError>
    ensures { Follows result read.names source.entry }
{
    let (first, mut rest) = name(alloc, source)?;
    let mut items = Items::new(alloc);
    items.push(first)?;
    'parts: while sees(rest, Kind::Comma) {
        let (next, after) = next_name(alloc, rest)?;
        items.push(next)?;
        rest = after;
    }
    Ok((items, rest))
}

/// `PARTITION`
#[tactic(auto, unfolding(paql_grammar::specs::StatementReading::partition))]
pub(crate) fn partition(
    alloc: Global,
    source: Source<'_>,
) -> Result<(Statement, Source<'_>), ReadError>
    ensures { Follows result read.partition source.entry }
{
    let rest = take(source, Kind::Partition)?;
    let (table, rest) = name(alloc, rest)?;
    let rest = take(rest, Kind::On)?;
    let rest = take(rest, Kind::LeftParen)?;
    let (columns, rest) = names(alloc, rest)?;
    let rest = take(rest, Kind::RightParen)?;
    let rest = take(rest, Kind::Size)?;
    let (size, rest) = whole(rest)?;
    let rest = take(rest, Kind::Radius)?;
    let (radius, rest) = number(false, rest)?;
    let statement = Statement::Partition {
        table,
        columns,
        size,
        radius,
    };
    Ok((statement, rest))
}

/// `VACUUM`
#[tactic(auto, unfolding(paql_grammar::specs::StatementReading::vacuum))]
pub(crate) fn vacuum(source: Source<'_>) -> Result<(Statement, Source<'_>), ReadError>
    ensures { Follows result read.vacuum source.entry }
{
    let rest = take(source, Kind::Vacuum)?;
    let (version, rest) = whole(rest)?;
    Ok((Statement::Vacuum { version }, rest))
}

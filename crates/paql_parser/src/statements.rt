//! All statements: the first token says which one is there.
ghost use Rattle.std.specs.Prelude.{◌≡◌};
ghost use Rattle.formal_grammar.specs.Parse.{Gives, all_of};
ghost use Rattle.paql_grammar.specs.StatementReading as read;
ghost use Rattle.paql_reader.specs.Sources.{Follows, left};

use crate::changes::{delete, update};
use crate::query::query;
use crate::tables::{create, insert, load, partition, vacuum};
use formal_grammar::{ReadError, Why};
use paql_ast::statements::Statement;
use paql_lexer::Kind;
use paql_reader::{Source, sees, take};
use std::alloc::Global;

/// How many brackets and NOTs of a condition may be open at one place.
const MAX_DEPTH: u32 = 64;

#[tactic(auto, unfolding(paql_grammar::specs::StatementReading::begin))]
fn begin(source: Source<'_>) -> Result<(Statement, Source<'_>), ReadError>
    ensures { Follows result read.begin source.entry }
{
    let rest = take(source, Kind::Begin)?;
    Ok((Statement::Begin, rest))
}

#[tactic(auto, unfolding(paql_grammar::specs::StatementReading::commit))]
fn commit(source: Source<'_>) -> Result<(Statement, Source<'_>), ReadError>
    ensures { Follows result read.commit source.entry }
{
    let rest = take(source, Kind::Commit)?;
    Ok((Statement::Commit, rest))
}

#[tactic(auto, unfolding(paql_grammar::specs::StatementReading::rollback))]
fn rollback(source: Source<'_>) -> Result<(Statement, Source<'_>), ReadError>
    ensures { Follows result read.rollback source.entry }
{
    let rest = take(source, Kind::Rollback)?;
    Ok((Statement::Rollback, rest))
}

#[tactic(auto, unfolding(paql_grammar::specs::StatementReading::certificate))]
fn certificate(source: Source<'_>) -> Result<(Statement, Source<'_>), ReadError>
    ensures { Follows result read.certificate source.entry }
{
    let rest = take(source, Kind::Certificate)?;
    Ok((Statement::Certificate, rest))
}

#[tactic(auto, unfolding(paql_grammar::specs::StatementReading::package_query))]
fn package_query(
    alloc: Global,
    depth: u32,
    source: Source<'_>,
) -> Result<(Statement, Source<'_>), ReadError>
    ensures { Follows result (read.package_query depth) source.entry }
{
    let (query, rest) = query(alloc, depth, source)?;
    Ok((Statement::Query(query), rest))
}

/// A statement of one word, or a query.
#[tactic(auto, unfolding(paql_grammar::specs::StatementReading::session))]
fn session(
    alloc: Global,
    depth: u32,
    source: Source<'_>,
) -> Result<(Statement, Source<'_>), ReadError>
    ensures { Follows result (read.session depth) source.entry }
{
    if sees(source, Kind::Begin) {
        return begin(source);
    }
    if sees(source, Kind::Commit) {
        return commit(source);
    }
    if sees(source, Kind::Rollback) {
        return rollback(source);
    }
    if sees(source, Kind::Certificate) {
        return certificate(source);
    }
    package_query(alloc, depth, source)
}

/// A change of what is stored, or a statement of `session`.
#[tactic(auto, unfolding(paql_grammar::specs::StatementReading::change))]
fn change(
    alloc: Global,
    depth: u32,
    source: Source<'_>,
) -> Result<(Statement, Source<'_>), ReadError>
    ensures { Follows result (read.change depth) source.entry }
{
    if sees(source, Kind::Update) {
        return update(alloc, depth, source);
    }
    if sees(source, Kind::Delete) {
        return delete(alloc, depth, source);
    }
    if sees(source, Kind::Partition) {
        return partition(alloc, source);
    }
    if sees(source, Kind::Vacuum) {
        return vacuum(source);
    }
    session(alloc, depth, source)
}

#[tactic(auto, unfolding(paql_grammar::specs::StatementReading::statement))]
fn statement(
    alloc: Global,
    depth: u32,
    source: Source<'_>,
) -> Result<(Statement, Source<'_>), ReadError>
    ensures { Follows result (read.statement depth) source.entry }
{
    if sees(source, Kind::Create) {
        return create(alloc, source);
    }
    if sees(source, Kind::Insert) {
        return insert(alloc, source);
    }
    if sees(source, Kind::Load) {
        return load(alloc, source);
    }
    change(alloc, depth, source)
}

/// The statement that all of the tokens spell.
pub(crate) fn whole(alloc: Global, source: Source<'_>) -> Result<Statement, ReadError>
    ensures { Gives (λ x. x) result (all_of (read.statement MAX_DEPTH) (left source.entry)) }
{
    let (statement, rest) = statement(alloc, MAX_DEPTH, source)?;
    if !rest.tokens.is_empty() {
        return Err(ReadError::Stopped(Why::Syntax, rest.tokens.len()));
    }
    Ok(statement)
}

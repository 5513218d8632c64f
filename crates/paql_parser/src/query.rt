//! The line of a package query, in four parts that follow one another. `package_name` is the name
//! of the query's package, and `depth` is how many brackets and NOTs may be open in a condition.
ghost use Rattle.std.specs.Prelude.{◌≡◌, [], ◌∷◌};
ghost use Rattle.formal_grammar.specs.Parse as parse;
ghost use Rattle.formal_grammar.specs.Parse.{Gives, maybe, when, pure, separated};
ghost use Rattle.paql_grammar.specs.Aggregates.{goal_kinds};
ghost use Rattle.paql_grammar.specs.Lexemes.{among, is};
ghost use Rattle.paql_grammar.specs.Query as grammar;
ghost use Rattle.paql_grammar.specs.Query.{alias_kinds};
ghost use Rattle.paql_grammar.specs.AggregateReading.{constraint, objective};
ghost use Rattle.paql_grammar.specs.ConditionReading.{pred};
ghost use Rattle.paql_grammar.specs.QueryReading as read;
ghost use Rattle.paql_parser.specs.QueryParts.{head_of, relation_of, constraints_of, ending_of};
ghost use Rattle.paql_reader.specs.Sources.{Follows, left};

use crate::aggregates::{conj, goal};
use formal_grammar::ReadError;
use paql_ast::conditions::Pred;
use paql_ast::queries::{Conjunct, Goal, Method, Query};
use paql_lexer::Kind;
use paql_reader::{Source, condition, name, sees, take, whole};
use schema_types::Text;
use sqlite_items::Items;
use std::alloc::Global;

/// What PACKAGE names, and the package's name.
#[derive(Drop)]
struct Head {
    of: Text,
    package_name: Text,
}

/// What comes after FROM.
#[derive(Drop)]
struct Relation {
    table: Text,
    alias: Option<Text>,
    version: Option<u64>,
    repeat: Option<u64>,
}

/// WHERE and SUCH THAT.
#[derive(Drop)]
struct Constraints {
    filter: Option<Pred>,
    conjuncts: Items<Conjunct>,
}

/// What comes after the constraints.
#[derive(Drop)]
struct Ending {
    goal: Option<Goal>,
    method: Option<Method>,
    budget: Option<u64>,
}

/// A name, with AS before it or not.
#[tactic(auto, unfolding(paql_grammar::specs::QueryReading::named))]
fn named<'a>(alloc: Global, source: Source<'a>) -> Result<(Text, Source<'a>), ReadError>
    ensures { Follows result read.named source.entry }
{
    if !sees(source, Kind::As) {
        return name(alloc, source);
    }
    let rest = take(source, Kind::As)?;
    name(alloc, rest)
}

#[tactic(auto, unfolding(paql_grammar::specs::QueryReading::head))]
fn read_head<'a>(alloc: Global, source: Source<'a>) -> Result<(Head, Source<'a>), ReadError>
    ensures { Gives (λ x. (head_of x.0, left x.1)) result (read.head (left source.entry)) }
{
    let rest = take(source, Kind::Select)?;
    let rest = take(rest, Kind::Package)?;
    let rest = take(rest, Kind::LeftParen)?;
    let (of, rest) = name(alloc, rest)?;
    let rest = take(rest, Kind::RightParen)?;
    let (package_name, rest) = named(alloc, rest)?;
    Ok((Head { of, package_name }, rest))
}

fn sees_alias(source: Source<'_>) -> bool
    ensures { result ≡ parse.sees (among alias_kinds) (left source.entry) }
{
    match source.tokens {
        [first, ..] => {
            first.kind == Kind::As || first.kind == Kind::Name || first.kind == Kind::QuotedName
        }
        [] => false,
    }
}

fn sees_goal(source: Source<'_>) -> bool
    ensures { result ≡ parse.sees (among goal_kinds) (left source.entry) }
{
    match source.tokens {
        [first, ..] => first.kind == Kind::Minimize || first.kind == Kind::Maximize,
        [] => false,
    }
}

fn alias<'a>(alloc: Global, source: Source<'a>) -> Result<(Option<Text>, Source<'a>), ReadError>
    ensures { Follows result (maybe (among alias_kinds) read.named) source.entry }
{
    if !sees_alias(source) {
        return Ok((None, source));
    }
    let (alias, rest) = named(alloc, source)?;
    Ok((Some(alias), rest))
}

#[tactic(auto, unfolding(paql_grammar::specs::QueryReading::version))]
fn version<'a>(source: Source<'a>) -> Result<(u64, Source<'a>), ReadError>
    ensures { Follows result read.version source.entry }
{
    let rest = take(source, Kind::At)?;
    let rest = take(rest, Kind::Version)?;
    whole(rest)
}

fn optional_version<'a>(source: Source<'a>) -> Result<(Option<u64>, Source<'a>), ReadError>
    ensures { Follows result (maybe (is Kind.At) read.version) source.entry }
{
    if !sees(source, Kind::At) {
        return Ok((None, source));
    }
    let (version, rest) = version(source)?;
    Ok((Some(version), rest))
}

#[tactic(auto, unfolding(paql_grammar::specs::QueryReading::repeat_limit))]
fn repeat_limit<'a>(source: Source<'a>) -> Result<(u64, Source<'a>), ReadError>
    ensures { Follows result read.repeat_limit source.entry }
{
    let rest = take(source, Kind::Repeat)?;
    whole(rest)
}

fn optional_repeat<'a>(source: Source<'a>) -> Result<(Option<u64>, Source<'a>), ReadError>
    ensures { Follows result (maybe (is Kind.Repeat) read.repeat_limit) source.entry }
{
    if !sees(source, Kind::Repeat) {
        return Ok((None, source));
    }
    let (repeat, rest) = repeat_limit(source)?;
    Ok((Some(repeat), rest))
}

#[tactic(auto, unfolding(paql_grammar::specs::QueryReading::relation))]
fn read_relation<'a>(alloc: Global, source: Source<'a>) -> Result<(Relation, Source<'a>), ReadError>
    ensures { Gives (λ x. (relation_of x.0, left x.1)) result (read.relation (left source.entry)) }
{
    let rest = take(source, Kind::From)?;
    let (table, rest) = name(alloc, rest)?;
    let (alias, rest) = alias(alloc, rest)?;
    let (version, rest) = optional_version(rest)?;
    let (repeat, rest) = optional_repeat(rest)?;
    let relation = Relation {
        table,
        alias,
        version,
        repeat,
    };
    Ok((relation, rest))
}

/// WHERE and its condition.
#[tactic(auto, unfolding(paql_grammar::specs::QueryReading::filter))]
fn filter<'a>(
    alloc: Global,
    depth: u32,
    source: Source<'a>,
) -> Result<(Pred, Source<'a>), ReadError>
    ensures { Follows result (read.filter (pred depth)) source.entry }
{
    let rest = take(source, Kind::Where)?;
    condition(alloc, depth, rest)
}

fn optional_filter<'a>(
    alloc: Global,
    depth: u32,
    source: Source<'a>,
) -> Result<(Option<Pred>, Source<'a>), ReadError>
    ensures { Follows result (maybe (is Kind.Where) (read.filter (pred depth))) source.entry }
{
    if !sees(source, Kind::Where) {
        return Ok((None, source));
    }
    let (filter, rest) = filter(alloc, depth, source)?;
    Ok((Some(filter), rest))
}

fn next_constraint<'a>(
    alloc: Global,
    depth: u32,
    package_name: &[u8],
    source: Source<'a>,
) -> Result<(Conjunct, Source<'a>), ReadError>
    ensures { Follows result
        (read.next_constraint (constraint package_name.now (pred depth))) source.entry }
{
    let rest = take(source, Kind::And)?;
    conj(alloc, depth, package_name, rest)
}

fn listed_constraints<'a>(
    alloc: Global,
    depth: u32,
    package_name: &[u8],
    source: Source<'a>,
) -> Result<(Items<Conjunct>, Source<'a>), ReadError>
    ensures { Follows result
        (separated (is Kind.And) (constraint package_name.now (pred depth))) source.entry }
{
    let (first, mut rest) = conj(alloc, depth, package_name, source)?;
    let mut conjuncts = Items::new(alloc);
    conjuncts.push(first)?;
    'conjuncts: while sees(rest, Kind::And) {
        let (next, after) = next_constraint(alloc, depth, package_name, rest)?;
        conjuncts.push(next)?;
        rest = after;
    }
    Ok((conjuncts, rest))
}

#[tactic(auto, unfolding(paql_grammar::specs::QueryReading::such_that))]
fn such_that<'a>(
    alloc: Global,
    depth: u32,
    package_name: &[u8],
    source: Source<'a>,
) -> Result<(Items<Conjunct>, Source<'a>), ReadError>
    ensures { Follows result
        (read.such_that (constraint package_name.now (pred depth))) source.entry }
{
    let rest = take(source, Kind::Such)?;
    let rest = take(rest, Kind::That)?;
    listed_constraints(alloc, depth, package_name, rest)
}

fn optional_constraints<'a>(
    alloc: Global,
    depth: u32,
    package_name: &[u8],
    source: Source<'a>,
) -> Result<(Items<Conjunct>, Source<'a>), ReadError>
    ensures { Follows result
        (when (is Kind.Such) (read.such_that (constraint package_name.now (pred depth))) (pure []))
        source.entry }
{
    if sees(source, Kind::Such) {
        return such_that(alloc, depth, package_name, source);
    }
    Ok((Items::new(alloc), source))
}

#[tactic(auto, unfolding(paql_grammar::specs::QueryReading::constraints))]
fn read_constraints<'a>(
    alloc: Global,
    depth: u32,
    package_name: &[u8],
    source: Source<'a>,
) -> Result<(Constraints, Source<'a>), ReadError>
    ensures { Gives (λ x. (constraints_of x.0, left x.1)) result
        (read.constraints (pred depth) (constraint package_name.now (pred depth))
        (left source.entry)) }
{
    let (filter, rest) = optional_filter(alloc, depth, source)?;
    let (conjuncts, rest) = optional_constraints(alloc, depth, package_name, rest)?;
    Ok((Constraints { filter, conjuncts }, rest))
}

fn optional_goal<'a>(
    alloc: Global,
    depth: u32,
    package_name: &[u8],
    source: Source<'a>,
) -> Result<(Option<Goal>, Source<'a>), ReadError>
    ensures { Follows result
        (maybe (among goal_kinds) (objective package_name.now (pred depth))) source.entry }
{
    if !sees_goal(source) {
        return Ok((None, source));
    }
    let (goal, rest) = goal(alloc, depth, package_name, source)?;
    Ok((Some(goal), rest))
}

#[tactic(auto, unfolding(paql_grammar::specs::QueryReading::direct))]
fn direct<'a>(source: Source<'a>) -> Result<(Method, Source<'a>), ReadError>
    ensures { Follows result read.direct source.entry }
{
    let rest = take(source, Kind::Direct)?;
    Ok((Method::Direct, rest))
}

#[tactic(auto, unfolding(paql_grammar::specs::QueryReading::sketch_refine))]
fn sketch_refine<'a>(source: Source<'a>) -> Result<(Method, Source<'a>), ReadError>
    ensures { Follows result read.sketch_refine source.entry }
{
    let rest = take(source, Kind::SketchRefine)?;
    Ok((Method::SketchRefine, rest))
}

#[tactic(auto, unfolding(paql_grammar::specs::QueryReading::method))]
fn method<'a>(source: Source<'a>) -> Result<(Method, Source<'a>), ReadError>
    ensures { Follows result read.method source.entry }
{
    let rest = take(source, Kind::Using)?;
    if sees(rest, Kind::Direct) {
        return direct(rest);
    }
    sketch_refine(rest)
}

fn optional_method<'a>(source: Source<'a>) -> Result<(Option<Method>, Source<'a>), ReadError>
    ensures { Follows result (maybe (is Kind.Using) read.method) source.entry }
{
    if !sees(source, Kind::Using) {
        return Ok((None, source));
    }
    let (method, rest) = method(source)?;
    Ok((Some(method), rest))
}

#[tactic(auto, unfolding(paql_grammar::specs::QueryReading::budget))]
fn budget<'a>(source: Source<'a>) -> Result<(u64, Source<'a>), ReadError>
    ensures { Follows result read.budget source.entry }
{
    let rest = take(source, Kind::Budget)?;
    whole(rest)
}

fn optional_budget<'a>(source: Source<'a>) -> Result<(Option<u64>, Source<'a>), ReadError>
    ensures { Follows result (maybe (is Kind.Budget) read.budget) source.entry }
{
    if !sees(source, Kind::Budget) {
        return Ok((None, source));
    }
    let (budget, rest) = budget(source)?;
    Ok((Some(budget), rest))
}

#[tactic(auto, unfolding(paql_grammar::specs::QueryReading::ending))]
fn read_ending<'a>(
    alloc: Global,
    depth: u32,
    package_name: &[u8],
    source: Source<'a>,
) -> Result<(Ending, Source<'a>), ReadError>
    ensures { Gives (λ x. (ending_of x.0, left x.1)) result
        (read.ending (objective package_name.now (pred depth)) (left source.entry)) }
{
    let (goal, rest) = optional_goal(alloc, depth, package_name, source)?;
    let (method, rest) = optional_method(rest)?;
    let (budget, rest) = optional_budget(rest)?;
    let ending = Ending {
        goal,
        method,
        budget,
    };
    Ok((ending, rest))
}

/// The tree of the four parts.
fn query_of(head: Head, relation: Relation, constraints: Constraints, ending: Ending) -> Query
    ensures { result ≡ grammar.query_of (head_of head) (relation_of relation)
        (constraints_of constraints) (ending_of ending) }
{
    Query {
        of: head.of,
        package: head.package_name,
        table: relation.table,
        alias: relation.alias,
        version: relation.version,
        repeat: relation.repeat,
        filter: constraints.filter,
        conjuncts: constraints.conjuncts,
        goal: ending.goal,
        method: ending.method,
        budget: ending.budget,
    }
}

/// A whole query. `depth` is how many brackets and NOTs of a condition may be open at one place.
#[tactic(auto, unfolding(paql_grammar::specs::QueryReading::query))]
pub(crate) fn query<'a>(
    alloc: Global,
    depth: u32,
    source: Source<'a>,
) -> Result<(Query, Source<'a>), ReadError>
    ensures { Follows result (read.query (pred depth)) source.entry }
{
    let (head, rest) = read_head(alloc, source)?;
    let (relation, rest) = read_relation(alloc, rest)?;
    let (constraints, rest) = read_constraints(alloc, depth, head.package_name.as_slice(), rest)?;
    let (ending, rest) = read_ending(alloc, depth, head.package_name.as_slice(), rest)?;
    Ok((query_of(head, relation, constraints, ending), rest))
}

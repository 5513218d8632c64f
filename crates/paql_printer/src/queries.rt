//! Package queries, and the constraints and goals in them.
ghost use Rattle.std.specs.Prelude.{◌≡◌, ◌∷◌, [], if◌then◌else◌};
ghost use Rattle.paql_lexer.specs.declared.vocabulary.Kind.TheVariants as kinds;
ghost use Rattle.paql_printer.specs.Spellings.{spelled, name, whole};
ghost use Rattle.paql_printer.specs.Print as print;
ghost use Rattle.paql_ast.specs.declared.queries.Conjunct.TheVariants as conjuncts;
ghost use Rattle.paql_printer.specs.Fronts.{Writes};
ghost use Rattle.paql_printer.specs.Parts as parts;

use crate::aggregates::sum;
use crate::conditions::condition;
use crate::leaves::{column, name, operator, signed, whole};
use crate::lists::separate;
use crate::writer::Writer;
use paql_ast::aggregates::SumItem;
use paql_ast::conditions::{CmpOp, ColumnName, Pred};
use paql_ast::queries::{Conjunct, Goal, Method, Query};
use paql_lexer::Kind;
use pq_base::Scaled;
use schema_types::Text;
use std::alloc::AllocError;

// ---- constraints

fn compared(
    writer: &mut Writer,
    package: &Text,
    left: &[SumItem],
    op: CmpOp,
    right: &[SumItem],
) -> Result<(), AllocError>
    ensures { Writes result writer.old writer.new
        (print.conjunct «package».now (conjuncts.Compare left.now op right.now)) }
{
    sum(writer, package, left)?;
    operator(writer, op)?;
    sum(writer, package, right)
}

/// BETWEEN and its two ends.
fn ends(writer: &mut Writer, low: Scaled, high: Scaled) -> Result<(), AllocError>
    ensures { Writes result writer.old writer.new (print.ends low high) }
{
    writer.word(Kind::Between)?;
    signed(writer, low)?;
    writer.word(Kind::And)?;
    signed(writer, high)
}

fn average(writer: &mut Writer, of: &ColumnName) -> Result<(), AllocError>
    ensures { Writes result writer.old writer.new (print.average of.now) }
{
    writer.word(Kind::Avg)?;
    writer.word(Kind::LeftParen)?;
    column(writer, of)?;
    writer.word(Kind::RightParen)
}

fn conjunct(writer: &mut Writer, package: &Text, of: &Conjunct) -> Result<(), AllocError>
    ensures { Writes result writer.old writer.new (print.conjunct «package».now of.now) }
{
    match of {
        Conjunct::Compare { left, op, right } => {
            compared(writer, package, left.as_slice(), *op, right.as_slice())
        }
        Conjunct::Between {
            sum: items,
            low,
            high,
        } => {
            sum(writer, package, items.as_slice())?;
            ends(writer, *low, *high)
        }
        Conjunct::Avg { column, op, limit } => {
            average(writer, column)?;
            operator(writer, *op)?;
            signed(writer, *limit)
        }
        Conjunct::AvgBetween { column, low, high } => {
            average(writer, column)?;
            ends(writer, *low, *high)
        }
    }
}

fn joined(writer: &mut Writer, package: &Text, conjuncts: &[Conjunct]) -> Result<(), AllocError>
    ensures { Writes result writer.old writer.new
        (print.listed kinds.And (print.conjunct «package».now) conjuncts.now) }
{
    for (at, of) in conjuncts.iter().enumerate() {
        separate(writer, Kind::And, at)?;
        conjunct(writer, package, of)?;
    }
    Ok(())
}

fn such_that(writer: &mut Writer, package: &Text, conjuncts: &[Conjunct]) -> Result<(), AllocError>
    ensures { Writes result writer.old writer.new (print.such_that «package».now conjuncts.now) }
{
    if conjuncts.is_empty() {
        return Ok(());
    }
    writer.word(Kind::Such)?;
    writer.word(Kind::That)?;
    joined(writer, package, conjuncts)
}

// ---- the parts of a query

/// `SELECT PACKAGE(of) AS package`
fn head(writer: &mut Writer, of: &Text, package: &Text) -> Result<(), AllocError>
    ensures { Writes result writer.old writer.new (print.head of.now «package».now) }
{
    writer.word(Kind::Select)?;
    writer.word(Kind::Package)?;
    writer.word(Kind::LeftParen)?;
    name(writer, of)?;
    writer.word(Kind::RightParen)?;
    writer.word(Kind::As)?;
    name(writer, package)
}

fn alias(writer: &mut Writer, alias: &Option<Text>) -> Result<(), AllocError>
    ensures { Writes result writer.old writer.new (print.optional parts.named alias.now) }
{
    match alias {
        Some(word) => name(writer, word),
        None => Ok(()),
    }
}

fn version(writer: &mut Writer, version: Option<u64>) -> Result<(), AllocError>
    ensures { Writes result writer.old writer.new
        (print.optional (λ number. print.behind kinds.At
        (print.behind kinds.Version (whole number ∷ []))) version) }
{
    match version {
        Some(number) => {
            writer.word(Kind::At)?;
            writer.word(Kind::Version)?;
            whole(writer, number)
        }
        None => Ok(()),
    }
}

/// A word and a number, where there is one.
fn counted(writer: &mut Writer, word: Kind, count: Option<u64>) -> Result<(), AllocError>
    ensures { Writes result writer.old writer.new
        (print.optional (λ number. print.behind word (whole number ∷ [])) count) }
{
    match count {
        Some(number) => {
            writer.word(word)?;
            whole(writer, number)
        }
        None => Ok(()),
    }
}

fn relation(writer: &mut Writer, query: &Query) -> Result<(), AllocError>
    ensures { Writes result writer.old writer.new
        (print.relation query.now.table query.now.alias query.now.version query.now.repeat) }
{
    writer.word(Kind::From)?;
    name(writer, &query.table)?;
    alias(writer, &query.alias)?;
    version(writer, query.version)?;
    counted(writer, Kind::Repeat, query.repeat)
}

/// WHERE and a condition, where there is one.
pub(crate) fn filter(writer: &mut Writer, filter: &Option<Pred>) -> Result<(), AllocError>
    ensures { Writes result writer.old writer.new (print.filter filter.now) }
{
    match filter {
        Some(of) => {
            writer.word(Kind::Where)?;
            condition(writer, of)
        }
        None => Ok(()),
    }
}

fn goal(writer: &mut Writer, package: &Text, goal: &Option<Goal>) -> Result<(), AllocError>
    ensures { Writes result writer.old writer.new
        (print.optional (print.goal «package».now) goal.now) }
{
    match goal {
        Some(of) => best(writer, package, of),
        None => Ok(()),
    }
}

fn best(writer: &mut Writer, package: &Text, of: &Goal) -> Result<(), AllocError>
    ensures { Writes result writer.old writer.new (print.goal «package».now of.now) }
{
    writer.word(goal_kind(of.maximize))?;
    sum(writer, package, of.parts.as_slice())
}

fn goal_kind(maximize: bool) -> Kind
    ensures { result ≡ (if maximize then kinds.Maximize else kinds.Minimize) }
{
    if maximize {
        Kind::Maximize
    } else {
        Kind::Minimize
    }
}

fn method_kind(method: Method) -> Kind
    ensures { result ≡ print.method method }
{
    match method {
        Method::Direct => Kind::Direct,
        Method::SketchRefine => Kind::SketchRefine,
    }
}

fn method(writer: &mut Writer, method: Option<Method>) -> Result<(), AllocError>
    ensures { Writes result writer.old writer.new
        (print.optional (λ word. print.behind kinds.Using (spelled (print.method word) ∷ []))
        method) }
{
    match method {
        Some(word) => {
            writer.word(Kind::Using)?;
            writer.word(method_kind(word))
        }
        None => Ok(()),
    }
}

fn ending(writer: &mut Writer, query: &Query) -> Result<(), AllocError>
    ensures { Writes result writer.old writer.new
        (print.ending query.now.«package» query.now.goal query.now.method query.now.budget) }
{
    goal(writer, &query.package, &query.goal)?;
    method(writer, query.method)?;
    counted(writer, Kind::Budget, query.budget)
}

/// A package query.
pub(crate) fn query(writer: &mut Writer, query: &Query) -> Result<(), AllocError>
    ensures { Writes result writer.old writer.new (print.query query.now) }
{
    head(writer, &query.of, &query.package)?;
    relation(writer, query)?;
    filter(writer, &query.filter)?;
    such_that(writer, &query.package, query.conjuncts.as_slice())?;
    ending(writer, query)
}

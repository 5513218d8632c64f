//! Aggregates, and the sums that they are in.
ghost use Rattle.paql_printer.specs.Print as print;
ghost use Rattle.paql_printer.specs.Fronts.{Writes};
ghost use Rattle.paql_printer.specs.Parts as parts;

use crate::conditions::condition;
use crate::leaves::{column, name, number};
use crate::lists::separate;
use crate::writer::Writer;
use paql_ast::aggregates::{Agg, Plain, SumItem, Term};
use paql_ast::conditions::{ColumnName, Pred};
use paql_lexer::Kind;
use pq_base::Scaled;
use schema_types::Text;
use std::alloc::AllocError;

/// All rows of a package.
fn all_of(writer: &mut Writer, package: &Text) -> Result<(), AllocError>
    ensures { Writes result writer.old writer.new (parts.all_of «package».now) }
{
    name(writer, package)?;
    writer.word(Kind::Dot)?;
    writer.word(Kind::Star)
}

/// What is counted: inside a conditional aggregate the package has no name.
fn rows(
    writer: &mut Writer,
    inside: bool,
    package: &Text,
    of: &Option<Text>,
) -> Result<(), AllocError>
    ensures { Writes result writer.old writer.new (print.rows inside «package».now of.now) }
{
    match of {
        Some(of) => all_of(writer, of),
        None => own_rows(writer, inside, package),
    }
}

/// The rows of the query's own package.
fn own_rows(writer: &mut Writer, inside: bool, package: &Text) -> Result<(), AllocError>
    ensures { Writes result writer.old writer.new (print.rows inside «package».now None) }
{
    if inside {
        return writer.word(Kind::Star);
    }
    all_of(writer, package)
}

/// An aggregate of all copies.
fn plain(writer: &mut Writer, inside: bool, package: &Text, of: &Plain) -> Result<(), AllocError>
    ensures { Writes result writer.old writer.new (print.plain inside «package».now of.now) }
{
    match of {
        Plain::Count(of) => {
            writer.word(Kind::Count)?;
            writer.word(Kind::LeftParen)?;
            rows(writer, inside, package, of)?;
            writer.word(Kind::RightParen)
        }
        Plain::Sum(of) => {
            writer.word(Kind::Sum)?;
            writer.word(Kind::LeftParen)?;
            column(writer, of)?;
            writer.word(Kind::RightParen)
        }
    }
}

/// An aggregate of those copies that meet a condition.
fn conditional(
    writer: &mut Writer,
    package: &Text,
    of: &Plain,
    from: &Text,
    filter: &Pred,
) -> Result<(), AllocError>
    ensures { Writes result writer.old writer.new
        (print.only «package».now of.now (Some (from.now, filter.now))) }
{
    writer.word(Kind::LeftParen)?;
    writer.word(Kind::Select)?;
    plain(writer, true, package, of)?;
    writer.word(Kind::From)?;
    name(writer, from)?;
    writer.word(Kind::Where)?;
    condition(writer, filter)?;
    writer.word(Kind::RightParen)
}

fn only(
    writer: &mut Writer,
    package: &Text,
    of: &Plain,
    filter: &Option<(Text, Pred)>,
) -> Result<(), AllocError>
    ensures { Writes result writer.old writer.new (print.only «package».now of.now filter.now) }
{
    match filter {
        Some(filter) => conditional(writer, package, of, &filter.0, &filter.1),
        None => plain(writer, false, package, of),
    }
}

fn agg(writer: &mut Writer, package: &Text, of: &Agg) -> Result<(), AllocError>
    ensures { Writes result writer.old writer.new (print.agg «package».now of.now) }
{
    only(writer, package, &of.plain, &of.only)
}

fn factor(writer: &mut Writer, times: Option<Scaled>) -> Result<(), AllocError>
    ensures { Writes result writer.old writer.new (print.optional print.factor times) }
{
    match times {
        Some(times) => {
            number(writer, times)?;
            writer.word(Kind::Star)
        }
        None => Ok(()),
    }
}

fn term(writer: &mut Writer, package: &Text, of: &Term) -> Result<(), AllocError>
    ensures { Writes result writer.old writer.new (print.term «package».now of.now) }
{
    match of {
        Term::Number(value) => number(writer, *value),
        Term::Agg {
            factor: times,
            agg: of,
        } => {
            factor(writer, *times)?;
            agg(writer, package, of)
        }
    }
}

/// The sign before a term.
fn sign(writer: &mut Writer, at: usize, minus: bool) -> Result<(), AllocError>
    ensures { Writes result writer.old writer.new (parts.sign at minus) }
{
    if minus {
        return writer.word(Kind::Minus);
    }
    separate(writer, Kind::Plus, at)
}

/// A sum.
pub(crate) fn sum(writer: &mut Writer, package: &Text, items: &[SumItem]) -> Result<(), AllocError>
    ensures { Writes result writer.old writer.new (print.sum «package».now items.now) }
{
    for (at, item) in items.iter().enumerate() {
        sign(writer, at, item.minus)?;
        term(writer, package, &item.term)?;
    }
    Ok(())
}

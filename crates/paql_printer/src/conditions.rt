//! Conditions, with brackets where a part holds together less tightly than what is around it.
ghost use Rattle.std.specs.Prelude.{◌≡◌, ◌++◌};
ghost use Rattle.paql_lexer.specs.declared.vocabulary.Kind.TheVariants as kinds;
ghost use Rattle.paql_printer.specs.Print as print;
ghost use Rattle.paql_printer.specs.Fronts.{Writes};
ghost use Rattle.paql_printer.specs.Parts as parts;
ghost use Rattle.paql_printer.specs.Parts.{held_of};

use crate::leaves::{column, lit, operand, operator};
use crate::lists::{listed, separate};
use crate::writer::Writer;
use paql_ast::conditions::{CmpOp, ColumnName, Operand, Pred};
use paql_lexer::Kind;
use schema_types::Lit;
use std::alloc::AllocError;

/// How tightly the parts of an OR must hold together.
const IN_OR: u8 = 1;

/// How tightly the parts of an AND, and what a NOT denies, must hold together.
const IN_AND: u8 = 2;

/// How tightly a condition holds together: 0 an OR, 1 an AND, 2 all others.
fn level_of(pred: &Pred) -> u8
    ensures { result ≡ (held_of pred.now).level }
{
    match pred {
        Pred::Or(_) => 0,
        Pred::And(_) => 1,
        Pred::Not(_) | Pred::Compare { .. } | Pred::Between { .. } | Pred::In { .. } => 2,
    }
}

fn compared(
    writer: &mut Writer,
    of: &ColumnName,
    op: CmpOp,
    right: &Operand,
) -> Result<(), AllocError>
    ensures { Writes result writer.old writer.new
        (print.column of.now ++ print.behind (print.operator op) (print.operand right.now)) }
{
    column(writer, of)?;
    operator(writer, op)?;
    operand(writer, right)
}

fn ranged(writer: &mut Writer, of: &ColumnName, low: &Lit, high: &Lit) -> Result<(), AllocError>
    ensures { Writes result writer.old writer.new
        (print.column of.now ++ print.behind kinds.Between
        (print.lit low.now ++ print.behind kinds.And (print.lit high.now))) }
{
    column(writer, of)?;
    writer.word(Kind::Between)?;
    lit(writer, low)?;
    writer.word(Kind::And)?;
    lit(writer, high)
}

fn listed_in(writer: &mut Writer, of: &ColumnName, list: &[Lit]) -> Result<(), AllocError>
    ensures { Writes result writer.old writer.new
        (print.column of.now ++ print.behind kinds.In (print.tuple list.now)) }
{
    column(writer, of)?;
    writer.word(Kind::In)?;
    writer.word(Kind::LeftParen)?;
    listed(writer, list)?;
    writer.word(Kind::RightParen)
}

/// A condition without brackets around it.
#[cycle(conditions)]
pub(crate) fn condition(writer: &mut Writer, pred: &Pred) -> Result<(), AllocError>
    ensures { Writes result writer.old writer.new (print.pred pred.now) }
{
    match pred {
        Pred::Or(parts) => joined(writer, Kind::Or, IN_OR, parts.as_slice()),
        Pred::And(parts) => joined(writer, Kind::And, IN_AND, parts.as_slice()),
        Pred::Not(denied) => {
            writer.word(Kind::Not)?;
            part(writer, IN_AND, denied.get())
        }
        Pred::Compare { column, op, right } => compared(writer, column, *op, right),
        Pred::Between { column, low, high } => ranged(writer, column, low, high),
        Pred::In { column, list } => listed_in(writer, column, list.as_slice()),
    }
}

/// A condition in brackets, unless it holds together tightly enough.
#[cycle(conditions)]
fn part(writer: &mut Writer, level: u8, pred: &Pred) -> Result<(), AllocError>
    ensures { Writes result writer.old writer.new (parts.part level pred.now) }
{
    if level_of(pred) >= level {
        return condition(writer, pred);
    }
    writer.word(Kind::LeftParen)?;
    condition(writer, pred)?;
    writer.word(Kind::RightParen)
}

/// The parts of an AND or of an OR.
#[cycle(conditions)]
fn joined(writer: &mut Writer, word: Kind, level: u8, preds: &[Pred]) -> Result<(), AllocError>
    ensures { Writes result writer.old writer.new (print.listed word (parts.part level) preds.now) }
{
    for (at, pred) in preds.iter().enumerate() {
        separate(writer, word, at)?;
        part(writer, level, pred)?;
    }
    Ok(())
}

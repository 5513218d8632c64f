//! Why a query can't be bound.
ghost use Rattle.std.specs.Prelude.{◌≡◌, IfOk};
ghost use Rattle.paql_bind.specs.Faults.{Says};
ghost use Rattle.paql_bind.specs.Names.{written};

use paql_ast::conditions::ColumnName;
use schema_types::Text;
use sqlite_items::Items;
use std::alloc::{AllocError, Global};
use thiserror::Error;

/// Why there is no bound query.
#[derive(Debug, Drop, Error)]
pub enum BindFault {
    #[error(transparent)]
    Refused(Refusal),
    #[error("out of memory")]
    Memory(AllocError),
}

/// Why a query, or a condition, is refused. The name of a column is as it is written, with its
/// prefix and without quotes.
#[derive(Debug, Drop, Error)]
pub enum Refusal {
    /// There is no such table, or PACKAGE, COUNT or FROM names another thing than it has to.
    #[error("there is no such table")]
    NoTable(Text),
    /// The table has no such column, or the prefix is another one.
    #[error("there is no such column")]
    NoColumn(Text),
    /// A text is summed, or a text and a number are compared.
    #[error("the column is of the wrong kind")]
    WrongKind(Text),
    /// A number has more than `MAX_LITERAL_SCALE` digits after the point.
    #[error("a number has too many digits after the point")]
    TooFineLiteral,
    /// A number is more than `MAX_LITERAL_UNITS` units of its own last digit.
    #[error("a number is out of range")]
    LiteralRange,
    /// A factor isn't whole, or is more than `MAX_FACTOR`.
    #[error("a factor isn't a whole number up to 1000000")]
    Factor,
    /// BUDGET is 0 or more than `MAX_BUDGET`.
    #[error("a budget of {0}")]
    LimitBudget(u64),
    /// More than `MAX_CONJUNCTS` constraints are written.
    #[error("{0} constraints")]
    LimitConjuncts(u64),
    /// A constraint, or the goal, has more than `MAX_TERMS` terms. A constraint is named by its
    /// place among the bound ones, from 1, and the goal by 0.
    #[error("{given} terms in constraint {conjunct}")]
    LimitTerms { conjunct: u64, given: u64 },
    /// Neither REPEAT nor a count bounds how often a row can occur.
    #[error("nothing bounds how often a row can occur")]
    Unbounded,
    /// The bound is more than `MAX_ROW_BOUND`.
    #[error("a row can occur {0} times")]
    LimitRepeat(u64),
}

/// The refusal of a table's name, unless memory runs out.
pub(crate) fn no_table(alloc: Global, name: &Text) -> BindFault
    ensures { Says (Refusal.NoTable name.now) result }
{
    match Items::from_slice(alloc, name.as_slice()) {
        Ok(text) => BindFault::Refused(Refusal::NoTable(text)),
        Err(error) => BindFault::Memory(error),
    }
}

/// The refusal of a column's name, unless memory runs out.
pub(crate) fn no_column(alloc: Global, column: &ColumnName) -> BindFault
    ensures { Says (Refusal.NoColumn (written column.now)) result }
{
    match written(alloc, column) {
        Ok(text) => BindFault::Refused(Refusal::NoColumn(text)),
        Err(error) => BindFault::Memory(error),
    }
}

/// The refusal of a column's kind, unless memory runs out.
pub(crate) fn wrong_kind(alloc: Global, column: &ColumnName) -> BindFault
    ensures { Says (Refusal.WrongKind (written column.now)) result }
{
    match written(alloc, column) {
        Ok(text) => BindFault::Refused(Refusal::WrongKind(text)),
        Err(error) => BindFault::Memory(error),
    }
}

/// The name as it is written, without quotes.
fn written(alloc: Global, column: &ColumnName) -> Result<Text, AllocError>
    ensures { IfOk result (λ text. text ≡ written column.now) }
{
    let Some(prefix) = &column.prefix else {
        return Items::from_slice(alloc, column.name.as_slice());
    };
    let mut text = Vec::from_slice(alloc, prefix.as_slice())?;
    text.push(b'.')?;
    text.extend_from_slice(column.name.as_slice())?;
    Ok(Items::from_vec(text))
}

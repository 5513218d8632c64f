//! Cells, and what literals give as cells.
ghost use Rattle.std.specs.Prelude.{◌≡◌, IsTrue, IfOk, IsOk, MatchOption, Err};
ghost use Rattle.table_schema.specs.Columns.{has_legal_scale};
ghost use Rattle.table_schema.specs.Units.{units_in};
ghost use Rattle.table_schema.specs.Cells.{cell_gives, number_cell, number_fault};
ghost use Rattle.schema_types.specs.declared.Lit.TheVariants as lits;

use crate::limits::MAX_TEXT_BYTES;
use pq_base::{NumFault, Scaled};
use schema_types::{Column, Kind, Lit, Text};
use sqlite_items::Items;
use std::alloc::{AllocError, Global};
use thiserror::Error;

/// A cell of a table: a number in units of its column's scale, or a text.
#[derive(Debug, Drop)]
pub enum Cell {
    Num(i64),
    Text(Text),
}

/// Why a literal gives no cell of a column.
#[derive(Clone, Copy, Debug, PartialEq, Eq, Error)]
pub enum CellFault {
    /// It is of another kind, or has more digits after the point than the column keeps.
    #[error("the literal doesn't fit the column")]
    BadCell,
    /// It is more than 1,000,000,000,000 of the column's units, with either sign.
    #[error("the number is out of range")]
    OutOfRange,
    /// It is longer than the text of a cell can be.
    #[error("the text is too long")]
    TextTooLong,
}

/// What the literal gives as a cell of the column. It takes no memory: a text is moved.
pub fn cell_of(column: &Column, lit: Lit) -> Result<Cell, CellFault>
    requires { IsTrue (has_legal_scale column.now.kind) }
    ensures { result ≡ cell_gives column.now.kind lit }
{
    match lit {
        Lit::Num(number) => cell_of_number(column.kind, &number),
        Lit::Text(text) => match text_fault(column.kind, &text) {
            None => Ok(Cell::Text(text)),
            Some(fault) => Err(fault),
        },
    }
}

/// Why the literal gives no cell of the column, if it gives none. It takes no memory.
pub fn cell_fault(column: &Column, lit: &Lit) -> Option<CellFault>
    requires { IsTrue (has_legal_scale column.now.kind) }
    ensures { MatchOption result (IsOk (cell_gives column.now.kind lit.now))
        (λ fault. cell_gives column.now.kind lit.now ≡ Err fault) }
{
    match lit {
        Lit::Num(number) => match cell_of_number(column.kind, number) {
            Ok(_) => None,
            Err(fault) => Some(fault),
        },
        Lit::Text(text) => text_fault(column.kind, text),
    }
}

/// What the literal gives as a cell of the column. A text is copied.
pub(crate) fn copied_cell(
    alloc: Global,
    column: &Column,
    lit: &Lit,
) -> Result<Result<Cell, CellFault>, AllocError>
    requires { IsTrue (has_legal_scale column.now.kind) }
    ensures { IfOk result (λ cell. cell ≡ cell_gives column.now.kind lit.now) }
{
    match lit {
        Lit::Num(number) => Ok(cell_of_number(column.kind, number)),
        Lit::Text(text) => match text_fault(column.kind, text) {
            None => Ok(Ok(Cell::Text(Items::from_slice(alloc, text.as_slice())?))),
            Some(fault) => Ok(Err(fault)),
        },
    }
}

/// What a number gives as a cell of a column of this kind.
fn cell_of_number(kind: Kind, number: &Scaled) -> Result<Cell, CellFault>
    requires { IsTrue (has_legal_scale kind) }
    ensures { result ≡ cell_gives kind (lits.Num number.now) }
{
    match kind {
        Kind::Int => cell_of_units(number, 0),
        Kind::Dec(scale) => cell_of_units(number, scale as u8),
        Kind::Text => Err(CellFault::BadCell),
    }
}

/// What a number gives as a cell of a column that keeps so many digits after the point.
fn cell_of_units(number: &Scaled, scale: u8) -> Result<Cell, CellFault>
    ensures { result ≡ number_cell (units_in number.now.mant number.now.scale scale) }
{
    match number.units(scale) {
        Ok(units) => Ok(Cell::Num(units)),
        Err(fault) => Err(number_fault(fault)),
    }
}

/// Why a number that gives no units gives no cell.
fn number_fault(fault: NumFault) -> CellFault
    ensures { result ≡ number_fault fault }
{
    match fault {
        NumFault::NotANumber | NumFault::TooFine => CellFault::BadCell,
        NumFault::OutOfRange => CellFault::OutOfRange,
    }
}

/// Why a text is no cell of a column of this kind, if it is none.
fn text_fault(kind: Kind, text: &Text) -> Option<CellFault>
    ensures { MatchOption result (cell_gives kind (lits.Text text.now) ≡ Ok (Cell.Text text.now))
        (λ fault. cell_gives kind (lits.Text text.now) ≡ Err fault) }
{
    match kind {
        Kind::Int | Kind::Dec(_) => Some(CellFault::BadCell),
        Kind::Text if text.len() > MAX_TEXT_BYTES => Some(CellFault::TextTooLong),
        Kind::Text => None,
    }
}

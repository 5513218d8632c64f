//! Conditions on rows whose columns are places.

use paql_ast::conditions::CmpOp;
use schema_types::Lit;
use sqlite_items::{Boxed, Items};

/// What a column is compared with.
#[derive(Debug, Drop)]
pub enum RowRight {
    Lit(Lit),
    /// Another column of the same row, and its scale.
    Column { column: usize, scale: u8 },
}

/// A condition on a row. Columns are places, from 0. A scale is that of its column: 0 for whole
/// numbers and texts.
#[derive(Drop)]
pub enum RowPred {
    /// True on every row.
    All,
    Or(Items<RowPred>),
    And(Items<RowPred>),
    Not(Boxed<RowPred>),
    /// `column op right`
    Compare {
        column: usize,
        scale: u8,
        op: CmpOp,
        right: RowRight,
    },
    /// `column BETWEEN low AND high`, both ends among them.
    Between {
        column: usize,
        scale: u8,
        low: Lit,
        high: Lit,
    },
    /// `column IN (..)`
    In {
        column: usize,
        scale: u8,
        list: Items<Lit>,
    },
}

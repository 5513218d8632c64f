//! The trees of columns, of comparisons and of the conditions on rows.

use schema_types::{Lit, Text};
use sqlite_items::{Boxed, Items};

/// A column as a statement names it: `name`, or `prefix.name` with a table, an alias or a package
/// before it.
#[derive(Debug, Drop)]
pub struct ColumnName {
    pub prefix: Option<Text>,
    pub name: Text,
}

/// How two values are compared.
#[derive(Clone, Copy, Debug, PartialEq, Eq)]
pub enum CmpOp {
    /// `=`
    Eq,
    /// `<>`
    Ne,
    /// `<`
    Lt,
    /// `<=`
    Le,
    /// `>`
    Gt,
    /// `>=`
    Ge,
}

/// What a column is compared with.
#[derive(Debug, Drop)]
pub enum Operand {
    Lit(Lit),
    Column(ColumnName),
}

/// A condition on a row. The order of NOT, AND, OR is in the tree, so brackets are gone. OR and AND
/// have at least two parts, no part of an Or is an Or, and no part of an And is an And: the grammar
/// makes no others.
#[derive(Drop)]
pub enum Pred {
    Or(Items<Pred>),
    And(Items<Pred>),
    Not(Boxed<Pred>),
    /// `column op right`
    Compare {
        column: ColumnName,
        op: CmpOp,
        right: Operand,
    },
    /// `column BETWEEN low AND high`
    Between {
        column: ColumnName,
        low: Lit,
        high: Lit,
    },
    /// `column IN (..)`, with at least one literal.
    In {
        column: ColumnName,
        list: Items<Lit>,
    },
}

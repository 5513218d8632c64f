//! The trees of package queries.

use crate::aggregates::SumItem;
use crate::conditions::{CmpOp, ColumnName, Pred};
use pq_base::Scaled;
use schema_types::Text;
use sqlite_items::Items;

/// A constraint of SUCH THAT. Sums have at least one item, and no `op` is Ne: the grammar makes no
/// others.
#[derive(Drop)]
pub enum Conjunct {
    /// `left op right`
    Compare {
        left: Items<SumItem>,
        op: CmpOp,
        right: Items<SumItem>,
    },
    /// `sum BETWEEN low AND high`
    Between {
        sum: Items<SumItem>,
        low: Scaled,
        high: Scaled,
    },
    /// `AVG(column) op limit`
    Avg {
        column: ColumnName,
        op: CmpOp,
        limit: Scaled,
    },
    /// `AVG(column) BETWEEN low AND high`
    AvgBetween {
        column: ColumnName,
        low: Scaled,
        high: Scaled,
    },
}

/// MAXIMIZE or MINIMIZE. There is at least one part, and no part is a Number: the grammar makes no
/// others.
#[derive(Drop)]
pub struct Goal {
    pub maximize: bool,
    pub parts: Items<SumItem>,
}

/// How a query is solved.
#[derive(Clone, Copy, Debug, PartialEq, Eq)]
pub enum Method {
    /// Exactly, over all rows.
    Direct,
    /// First over groups of rows, and then group by group.
    SketchRefine,
}

/// `SELECT PACKAGE(of) AS package FROM table alias ..`
#[derive(Drop)]
pub struct Query {
    /// The name that PACKAGE names: the table or its alias.
    pub of: Text,
    pub package: Text,
    pub table: Text,
    pub alias: Option<Text>,
    /// AT VERSION
    pub version: Option<u64>,
    /// REPEAT
    pub repeat: Option<u64>,
    /// WHERE
    pub filter: Option<Pred>,
    /// SUCH THAT: empty where it isn't written.
    pub conjuncts: Items<Conjunct>,
    pub goal: Option<Goal>,
    /// USING
    pub method: Option<Method>,
    /// BUDGET
    pub budget: Option<u64>,
}

//! Queries whose columns are places, and whose sums are whole numbers of units of one scale.
ghost use Rattle.std.specs.Prelude.{◌≤◌};
ghost use Rattle.bound_query.specs.Fits.{AreBoundParts, AreBoundParts-prop};
ghost use Rattle.bound_query.specs.Fits.{IsRowBound, IsRowBound-prop};

use crate::conditions::RowPred;
use paql_ast::queries::Method;
use schema_types::Text;
use sqlite_items::Items;

/// What is added up over the copies of a package, each only if its row meets the condition.
#[derive(Drop)]
pub enum BoundAgg {
    /// 1 for each copy.
    Count(RowPred),
    /// The number in a column, for each copy.
    Sum(usize, RowPred),
}

/// A term of a sum. For one copy of a row that meets its condition it gives `factor * value -
/// minus`, and 0 for a copy of any other row. The factor has the power of ten that brings the term
/// to the scale of its sum; only averages have a `minus`.
#[derive(Drop)]
pub struct BoundTerm {
    pub factor: i64,
    pub agg: BoundAgg,
    pub minus: i128,
}

/// How a sum is compared.
#[derive(Clone, Copy, Debug, PartialEq, Eq)]
pub enum Op {
    /// `<=`
    Le,
    /// `<`
    Lt,
    /// `>=`
    Ge,
    /// `>`
    Gt,
    /// `=`
    Eq,
    /// From `low` to `high`, both among them.
    Between,
}

/// A constraint: the sum of the terms compared with `high`, in units of `10^-scale`. `low` is the
/// lower end of Between, and 0 for every other op.
#[derive(Drop)]
pub struct BoundConjunct {
    pub terms: Items<BoundTerm>,
    pub op: Op,
    pub high: i128,
    pub low: i128,
    pub scale: u8,
}

/// What is to be greatest, or least, in units of `10^-scale`.
#[derive(Drop)]
pub struct BoundGoal {
    pub terms: Items<BoundTerm>,
    pub maximize: bool,
    pub scale: u8,
}

/// A query whose names are resolved. `row_bound` is how often a row can occur in a package that
/// meets the query: at most 1,000,000 times, and as often as REPEAT allows, or as a constraint on
/// the count of all copies does. `AVG .. BETWEEN` is two conjuncts. There are at most 64 terms in a
/// sum, and at most 62 conjuncts, of which those with two sides (`=` and BETWEEN) count twice.
#[derive(Drop)]
pub struct BoundQuery {
    pub table: Text,
    pub version: Option<u64>,
    pub filter: RowPred,
    pub repeat: Option<u64>,
    pub row_bound: u32,
    pub conjuncts: Items<BoundConjunct>,
    pub goal: Option<BoundGoal>,
    pub method: Method,
    pub budget: u32,
    pub ghost sizes: { AreBoundParts filter conjuncts goal } by { AreBoundParts-prop _ _ _ },
    pub ghost copies: { IsRowBound repeat row_bound conjuncts } by { IsRowBound-prop _ _ _ },
    pub ghost some_budget: { 1 ≤ budget },
}

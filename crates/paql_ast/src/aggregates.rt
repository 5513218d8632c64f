//! The trees of aggregates, and of the sums that they are in.

use crate::conditions::{ColumnName, Pred};
use pq_base::Scaled;
use schema_types::Text;

/// What is summed over the copies of a package.
#[derive(Debug, Drop)]
pub enum Plain {
    /// `COUNT(name.*)`. The count of the query's own package has no name here, however it is
    /// spelled.
    Count(Option<Text>),
    /// `SUM(column)`
    Sum(ColumnName),
}

/// An aggregate, with `only` over the copies that meet a condition: `(SELECT plain FROM name WHERE
/// pred)`. The name after FROM is kept as it is written.
#[derive(Drop)]
pub struct Agg {
    pub plain: Plain,
    pub only: Option<(Text, Pred)>,
}

/// A number, or an aggregate with the factor before it, where one is written.
#[derive(Drop)]
pub enum Term {
    Number(Scaled),
    Agg { factor: Option<Scaled>, agg: Agg },
}

/// A term of a sum, with a minus before it or not.
#[derive(Drop)]
pub struct SumItem {
    pub minus: bool,
    pub term: Term,
}

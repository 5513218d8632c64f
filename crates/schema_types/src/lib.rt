//! The kinds of columns, and the literals of statements.
#![tactic(auto)]

use pq_base::Scaled;
use sqlite_items::Items;

/// A name or the content of a text: its bytes. Names and texts are compared and ordered by bytes,
/// and a statement gives them as slices of its own bytes, so no contract has a use for UTF-8.
/// Contracts see the list of the bytes.
pub type Text = Items<u8>;

/// What the cells of a column are.
#[derive(Clone, Copy, Debug, PartialEq, Eq)]
pub enum Kind {
    /// Whole numbers.
    Int,
    /// Decimal numbers with at most so many digits after the point.
    Dec(u64),
    /// Texts.
    Text,
}

/// A column of a table.
#[derive(Debug, Drop)]
pub struct Column {
    pub name: Text,
    pub kind: Kind,
}

/// A literal of a statement: a number with its own scale, or a text.
#[derive(Debug, Drop)]
pub enum Lit {
    Num(Scaled),
    Text(Text),
}

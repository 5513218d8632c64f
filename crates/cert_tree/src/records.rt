//! What a search did at the paths that it came to.
use lin_bound::{Mult, Path};

/// What was done at a path: its box closed by multipliers, or split at `var <= at` under multipliers that both
/// halves begin with.
#[derive(Debug, Drop)]
pub enum Act {
    Closed(Mult),
    Split { var: u32, at: u64, mult: Mult },
}

/// A path, and what was done there.
#[derive(Debug, Drop)]
pub struct Record {
    pub path: Path,
    pub act: Act,
}

/// One of what a tree is made of: a record, or a path where nothing was done.
#[derive(Debug, Drop)]
pub(crate) enum Piece {
    Done(Record),
    Left(Path),
}

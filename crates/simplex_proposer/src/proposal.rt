//! What a searcher offers for a box.

use lin_bound::Mult;

/// What a searcher offers for a box: multipliers that may close it, and a place to split it at, which may be no place
/// of the box at all.
#[derive(Debug, Drop)]
pub struct Proposal {
    pub mult: Mult,
    pub var: u32,
    pub at: u64,
}

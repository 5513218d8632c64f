//! What is planned for a box.

use simplex_proposer::Proposal;

/// What is proposed for a box, and in which order its halves are taken if it is split.
#[derive(Debug, Drop)]
pub struct Plan {
    pub proposal: Proposal,
    /// Whether the upper half is taken before the lower one.
    pub is_upper_next: bool,
}

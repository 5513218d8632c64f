//! The events of a search, of any number of workers, and the nodes that workers have in hand.
use crate::open_path::OpenPath;
use lin_bound::{Path, Point};
use simplex_proposer::Proposal;

/// The best value that a worker looked at for its node.
#[derive(Clone, Copy, Debug, PartialEq, Eq)]
pub enum Seen {
    NotLooked,
    /// The best value at that time, or that there was none.
    Looked(Option<i64>),
}

/// A node that a worker has in hand.
#[derive(Debug, Drop)]
pub struct Hand {
    pub worker: u32,
    pub path: OpenPath,
    pub seen: Seen,
}

/// One step of a search.
#[derive(Debug, Drop)]
pub enum Event {
    /// A worker takes an open path.
    Take { worker: u32, path: Path },
    /// A worker looks at the best value for its node.
    Look { worker: u32 },
    /// A worker closes or splits the box of its node.
    Handle { worker: u32, proposal: Proposal },
    /// A worker offers a point.
    Offer { worker: u32, point: Point },
    /// A worker gives its node back.
    Drop { worker: u32 },
}

/// What came of an event.
#[derive(Clone, Copy, Debug, PartialEq, Eq)]
pub enum Stepped {
    Done,
    /// Nothing changed.
    NotEnabled,
}

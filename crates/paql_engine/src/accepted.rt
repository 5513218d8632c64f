//! The replies to accepted commits. They are made after the commit, so that nothing that can fail comes between a commit
//! and its answer.
ghost use Rattle.std.specs.Prelude.{◌≡◌, ℕ, IfOk};
ghost use Rattle.paql_engine.specs.Replied.{shown_as};
ghost use Rattle.paql_engine.specs.Steps.{accepted};

use session_proto::{Reply, answers};
use std::alloc::{AllocError, Global};
use version_store::{Change, Committed};

/// What was accepted, as far as its reply shows it.
#[derive(Clone, Copy, Debug, PartialEq, Eq)]
pub enum Accepted {
    Created,
    Inserted,
    Loaded,
    Updated,
    Deleted,
    Partitioned,
    /// The least version that is kept from now on.
    Vacuumed(u64),
    /// A transaction of so many changes.
    Transaction(u64),
}

/// A change outside a transaction.
pub(crate) fn accepted_as(change: &Change) -> Accepted
    ensures { (rows version : ℕ)
        → shown_as result rows version ≡ accepted change.now rows version }
{
    match change {
        Change::Create { .. } => Accepted::Created,
        Change::Insert { .. } => Accepted::Inserted,
        Change::Update { .. } => Accepted::Updated,
        Change::Delete { .. } => Accepted::Deleted,
        Change::Partition { .. } => Accepted::Partitioned,
        Change::Vacuum { version } => Accepted::Vacuumed(*version),
    }
}

/// The reply to what was accepted.
pub(crate) fn accepted_reply(
    alloc: Global,
    accepted: Accepted,
    committed: Committed,
) -> Result<Reply, AllocError>
    ensures { IfOk result (λ reply.
        reply ≡ shown_as accepted committed.rows committed.version) }
{
    let Committed { rows, version } = committed;
    match accepted {
        Accepted::Created => answers::created(alloc, version),
        Accepted::Inserted => answers::inserted(alloc, rows, version),
        Accepted::Loaded => answers::loaded(alloc, rows, version),
        Accepted::Updated => answers::updated(alloc, rows, version),
        Accepted::Deleted => answers::deleted(alloc, rows, version),
        Accepted::Partitioned => answers::partitioned(alloc, version),
        Accepted::Vacuumed(low) => answers::vacuumed(alloc, low, version),
        Accepted::Transaction(changes) => answers::committed(alloc, changes, rows, version),
    }
}

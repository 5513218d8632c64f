//! All changes of a commit, one after another.
ghost use Rattle.std.specs.Prelude.{◌≡◌, List, IfSome, map};
ghost use Rattle.std.specs.List.{AllByRecursion};
ghost use Rattle.version_store.specs.Answers.{IsMemory, Refuses};
ghost use Rattle.version_store.specs.Changes.{rows_inserted};
ghost use Rattle.version_store.specs.Drafted.{PerformsAll};
ghost use Rattle.version_store.specs.Histories.{insert_count, numbered};
ghost use Rattle.version_store.specs.Legal.{AreLegal, HasColumns};
ghost use Rattle.version_store.specs.Performing.{IsDue};
ghost use Rattle.version_store.specs.declared.faults.CommitKind.{CommitKind};

use crate::changes::Change;
use crate::draft::Draft;
use crate::faults::{CommitFault, CommitKind};
use std::alloc::{AllocError, Global};

/// Out of memory is the fault of no change.
pub(crate) fn out_of_memory() -> CommitFault
    ensures { IsMemory result }
{
    CommitFault {
        change: 0,
        kind: CommitKind::Memory(AllocError),
    }
}

/// The fault of the change with this number.
fn of_change(change: u64, kind: CommitKind) -> CommitFault
    ensures { (faults : List CommitKind) → IsDue faults kind → Refuses (map (numbered change) faults) result }
{
    match kind {
        CommitKind::Memory(_) => out_of_memory(),
        kind => CommitFault { change, kind },
    }
}

/// Performs the changes of the commit that makes this version, after the version `high`. How many
/// rows they change is answered, held to the largest number.
pub(crate) fn perform_all(
    alloc: Global,
    high: u64,
    version: u64,
    changes: &[Change],
    draft: &mut Draft,
) -> Result<u64, CommitFault>
    requires legal { AreLegal version draft.old.tables }
    requires columns { AllByRecursion HasColumns changes.now }
    ensures { PerformsAll high version draft.old draft.new changes.now result }
{
    let mut rows = 0u64;
    for (place, change) in changes.iter().enumerate() {
        match draft.perform(alloc, high, version, change) {
            Ok(count) => rows = rows.saturating_add(count),
            Err(kind) => return Err(of_change(place as u64 + 1, kind)),
        }
    }
    Ok(rows)
}

/// How many rows the changes insert, if that is a number of 64 bits.
pub(crate) fn inserted_by(changes: &[Change]) -> Option<u64>
    ensures { IfSome result (λ count. count ≡ insert_count changes.now) }
{
    let mut count = 0u64;
    for change in changes {
        count = count.checked_add(inserts(change))?;
    }
    Some(count)
}

/// How many rows the change inserts.
fn inserts(change: &Change) -> u64
    ensures { result ≡ rows_inserted change.now }
{
    match change {
        Change::Insert { rows, .. } => rows.len() as u64,
        _ => 0,
    }
}

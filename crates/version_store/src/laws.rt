//! Laws of histories, for those who read the definitions.
ghost use Rattle.version_store.specs.Laws.{LongerHistories};
ghost use Rattle.version_store.specs.Legal.{LegalChanges, LegalHistories};
ghost use Rattle.version_store.specs.Counted.{CountedEntries};
ghost use Rattle.version_store.specs.Numbered.{NumberedHistories};
ghost use Rattle.version_store.specs.Partitioned.{PartitionedHistories};
ghost use Rattle.version_store.specs.Worked.{AreWorked};

/// Small histories are what they were worked out to be by hand.
pub fn worked_histories()
    ensures { AreWorked }
{}

/// One more commit makes one more version, after those that are there.
pub fn longer_histories()
    ensures { LongerHistories }
{}

/// Any change that isn't refused leaves tables as they have to be, within a commit too.
pub fn legal_changes()
    ensures { LegalChanges }
{}

/// What any history leaves are tables as they have to be.
pub fn legal_histories()
    ensures { LegalHistories }
{}

/// The entries that are kept are those of the least version that is kept, and those that each
/// later commit wrote.
pub fn counted_entries()
    ensures { CountedEntries }
{}

/// The rows of a version have ids from 1 to 10^12, since a commit inserts at most a million rows
/// and a history has at most a million commits.
pub fn numbered_histories()
    ensures { NumberedHistories }
{}

/// The partition of a table of a version is one that the statement allows, and the table's rows
/// are few and fit its columns: so they can be grouped by it.
pub fn partitioned_histories()
    ensures { PartitionedHistories }
{}

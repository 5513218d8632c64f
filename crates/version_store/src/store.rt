//! The store.
ghost use Rattle.std.specs.Prelude.{◌≡◌, ◌+◌, ◌<◌, ◌≤◌, [], ◌∷◌, ◌++◌, drop, length, IfOk, IfSome, MatchResult};
ghost use Rattle.std.specs.List.{AllByRecursion};
ghost use Rattle.version_store.specs.Answers.{AnswersCommit, AnswersVersion, Refuses, shown, state_at};
ghost use Rattle.version_store.specs.Counted.{all_fresh, counted};
ghost use Rattle.version_store.specs.Counts.{entries_in, written_in};
ghost use Rattle.version_store.specs.Histories.{above, commit_faults, insert_count, numbered, replay, states_of, IsHistory};
ghost use Rattle.version_store.specs.Laws.{HaveRows};
ghost use Rattle.version_store.specs.Legal.{HasColumns, HaveColumns};
ghost use Rattle.version_store.specs.Keeping.{IsReady, with_tables};
ghost use Rattle.version_store.specs.declared.faults.CommitKind.TheVariants.{LimitCommit, LimitRows};
ghost use Rattle.version_store.specs.declared.limits.TheConstants.{MAX_COMMIT_ROWS, MAX_ENTRIES, MAX_VERSION};

use crate::changes::{Change, Commit};
use crate::draft::Draft;
use crate::faults::{CommitFault, CommitKind};
use crate::limits::{MAX_COMMIT_ROWS, MAX_ENTRIES, MAX_VERSION};
use crate::performing::{inserted_by, out_of_memory, perform_all};
use crate::totals::{entries_in, written_in};
use crate::versions::{Kept, after, drop_first, fresh_in, one_at, put};
use snapshots::{Shared, Snapshot, Table};
use sqlite_items::Items;
use std::alloc::{AllocError, Global};
use std::marker::Model;

/// What an accepted commit made.
#[derive(Clone, Copy, Debug, PartialEq, Eq)]
pub struct Committed {
    /// The version that it made.
    pub version: u64,
    /// The rows that it changed.
    pub rows: u64,
}

/// Why there is no snapshot of a version.
#[derive(Clone, Copy, Debug, PartialEq, Eq)]
pub enum VaultFault {
    /// The version isn't kept, or isn't there.
    Unkept { asked: u64, low: u64, high: u64 },
    Memory(AllocError),
}

/// A history of commits, and the versions of the tables that are kept. Contracts see the history.
#[derive(Drop)]
pub struct VersionStore {
    commits: Vec<Commit>,
    /// The versions from `low` on.
    kept: Vec<Kept>,
    low: u64,
}

impl Model for VersionStore {
    ghost use Rattle.std.specs.Prelude.{List};
    ghost use Rattle.std.specs.Coded.{codes};
    ghost use Rattle.paql_ast.specs.contracts.conditions.Pred as pred;
    ghost use Rattle.version_store.specs.declared.changes.Change.{Change};
    ghost use Rattle.version_store.specs.Keeping.{IsStored};

    ghost Value = { List (List Change) };

    ghost coded = { Prim.hlevel (codes, pred.the_row.coded) };

    ghost view = { λ s. s.commits.items };

    ghost invariant = { λ s. IsStored s.commits.items s.kept.items s.low };
}

/// A version that a commit without a fault makes, and what is kept with it.
#[derive(Drop)]
struct Prepared {
    low: u64,
    rows: u64,
    version: Kept,
}

impl VersionStore {
    /// No commit, and version 0 without a table.
    pub fn new(alloc: Global) -> Result<VersionStore, AllocError>
        ensures { IfOk result (λ store. store ≡ []) }
    {
        let snapshot = Snapshot::new(alloc, 0, Items::new(alloc))?;
        let mut kept = Vec::with_capacity(alloc, 1)?;
        kept.push(Kept { snapshot, fresh: 0 })?;
        Ok(VersionStore {
            commits: Vec::new(alloc),
            kept,
            low: 0,
        })
    }

    /// The number of commits.
    pub fn version(&self) -> u64
        ensures value { result ≡ length self.now }
        ensures few { result ≤ MAX_VERSION }
        ensures accepted { IsHistory self.now }
        ensures built { HaveColumns self.now }
    {
        self.commits.len() as u64
    }

    /// The least version that is kept.
    pub fn low(&self) -> u64
        ensures value { result ≡ (replay self.now).low }
        ensures within { result ≤ length self.now }
    {
        self.low
    }

    /// A commit makes a version, or is handed back with its first fault, or because memory is out.
    pub fn commit(
        &mut self,
        alloc: Global,
        commit: Commit,
    ) -> Result<Committed, (CommitFault, Commit)>
        ensures { AnswersCommit self.old self.new commit result }
    {
        match self.prepared(alloc, commit.legal()) {
            Ok(ready) => self.keep(ready, commit),
            Err(fault) => Err((fault, commit)),
        }
    }

    /// The last version.
    pub fn snapshot(&self) -> Result<Snapshot, AllocError>
        ensures value { IfOk result (λ snapshot. snapshot ≡ shown self.now (length self.now)) }
        ensures rows { IfOk result (λ snapshot. HaveRows snapshot.tables) }
    {
        self.kept_at(self.version()).share()
    }

    /// A version, if it is kept.
    pub fn snapshot_at(&self, version: u64) -> Result<Snapshot, VaultFault>
        ensures value { AnswersVersion self.now version result }
        ensures rows { IfOk result (λ snapshot. HaveRows snapshot.tables) }
    {
        let low = self.low;
        let high = self.version();
        if version < low {
            return Err(unkept(version, low, high));
        }
        if high < version {
            return Err(unkept(version, low, high));
        }
        match self.kept_at(version).share() {
            Ok(snapshot) => Ok(snapshot),
            Err(error) => Err(VaultFault::Memory(error)),
        }
    }
}

fn unkept(asked: u64, low: u64, high: u64) -> VaultFault
    ensures { result ≡ VaultFault.Unkept asked low high }
{
    VaultFault::Unkept { asked, low, high }
}

impl VersionStore {
    /// A version that is kept.
    fn kept_at(&self, version: u64) -> &Snapshot
        requires low { (replay self.now).low ≤ version }
        requires high { version ≤ length self.now }
        ensures value { result.now ≡ shown self.now version }
        ensures rows { HaveRows result.now.tables }
    {
        let place = (version - self.low) as usize;
        &one_at(self.kept.as_slice(), place).snapshot
    }

    /// The version that the changes make, unless they are refused.
    fn prepared(&self, alloc: Global, changes: &[Change]) -> Result<Prepared, CommitFault>
        requires { AllByRecursion HasColumns changes.now }
        ensures { MatchResult result (λ ready. IsReady self.now changes.now ready.low ready.rows ready.version)
            (λ fault. Refuses (commit_faults (states_of self.now) changes.now) fault) }
    {
        let high = self.version();
        let version = high + 1;
        if MAX_VERSION < version {
            return Err(of_commit(CommitKind::LimitVersions(version)));
        }
        let Ok(mut draft) = Draft::of(alloc, self.low, self.kept_at(high)) else {
            return Err(out_of_memory());
        };
        let rows = perform_all(alloc, high, version, changes, &mut draft)?;
        check_inserted(changes)?;
        let low = draft.low();
        let tables = draft.into_tables();
        let fresh = self.check_entries(low, version, tables.as_slice())?;
        let Ok(snapshot) = Snapshot::new(alloc, version, tables) else {
            return Err(out_of_memory());
        };
        Ok(Prepared {
            low,
            rows,
            version: Kept { snapshot, fresh },
        })
    }

    /// How many of the entries of the tables are new, unless too many are kept with them.
    fn check_entries(
        &self,
        low: u64,
        version: u64,
        tables: &[Shared<Table>],
    ) -> Result<u64, CommitFault>
        requires least { (replay self.now).low ≤ low }
        requires most { low ≤ length self.now }
        requires version { version ≡ length self.now + 1 }
        ensures { MatchResult result
            (λ fresh. (fresh ≡ written_in version tables.now) × (above MAX_ENTRIES
            (counted low (with_tables self.now low tables.now)) LimitRows ≡ []))
            (λ fault. Refuses (above MAX_ENTRIES
            (counted low (with_tables self.now low tables.now)) LimitRows) fault) }
    {
        let Some(fresh) = written_in(tables, version) else {
            return Err(out_of_memory());
        };
        let Some(entries) = self.entries_with(low, fresh) else {
            return Err(out_of_memory());
        };
        if MAX_ENTRIES < entries {
            return Err(of_commit(CommitKind::LimitRows(entries)));
        }
        Ok(fresh)
    }

    /// How many entries are kept from the version `low` on, with some more.
    fn entries_with(&self, low: u64, more: u64) -> Option<u64>
        requires least { (replay self.now).low ≤ low }
        requires most { low ≤ length self.now }
        ensures { IfSome result (λ count. count ≡ entries_in (state_at self.now low).tables
            + (all_fresh (low + 1) (drop (low + 1) (states_of self.now)) + more)) }
    {
        let place = (low - self.low) as usize;
        let shown = entries_in(self.kept_at(low).tables())?;
        let wrote = fresh_in(after(self.kept.as_slice(), place))?;
        let later = wrote.checked_add(more)?;
        let all = shown.checked_add(later)?;
        Some(all)
    }

    /// Keeps the version of a commit that has no fault, and gives up those below its low.
    fn keep(&mut self, ready: Prepared, commit: Commit) -> Result<Committed, (CommitFault, Commit)>
        requires ready { IsReady self.old commit ready.low ready.rows ready.version }
        requires columns { AllByRecursion HasColumns commit }
        ensures { AnswersCommit self.old self.new commit result }
    {
        if self.commits.reserve(1).is_err() || self.kept.reserve(1).is_err() {
            return Err((out_of_memory(), commit));
        }
        let committed = Committed {
            version: ready.version.snapshot.version,
            rows: ready.rows,
        };
        drop_first(&mut self.kept, (ready.low - self.low) as usize);
        put(&mut self.kept, ready.version);
        put(&mut self.commits, commit);
        self.low = ready.low;
        Ok(committed)
    }
}

/// The whole commit is refused.
fn of_commit(kind: CommitKind) -> CommitFault
    ensures { result ≡ numbered 0 kind }
{
    CommitFault { change: 0, kind }
}

/// The changes don't insert too many rows.
fn check_inserted(changes: &[Change]) -> Result<(), CommitFault>
    ensures { MatchResult result
        (λ _. above MAX_COMMIT_ROWS (insert_count changes.now) LimitCommit ≡ [])
        (λ fault. Refuses (above MAX_COMMIT_ROWS (insert_count changes.now) LimitCommit) fault) }
{
    let Some(count) = inserted_by(changes) else {
        return Err(out_of_memory());
    };
    if MAX_COMMIT_ROWS < count {
        return Err(of_commit(CommitKind::LimitCommit(count)));
    }
    Ok(())
}

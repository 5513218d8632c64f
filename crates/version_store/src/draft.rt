//! The tables as the changes of a commit leave them, one change after another.
ghost use Rattle.std.specs.Prelude.{◌≡◌, ◌<◌, ◌≤◌, ℕ, None, IfOk, MatchResult, length, slice_index_or};
ghost use Rattle.std.specs.List.{AllByRecursion};
ghost use Rattle.snapshots.specs.States.{table_named};
ghost use Rattle.version_store.specs.Answers.{IsMemoryKind};
ghost use Rattle.version_store.specs.Drafted.{IsPlaceOf, IsPushed, IsPut, Performs, place_named};
ghost use Rattle.version_store.specs.Faults.{exists_faults, tables_faults};
ghost use Rattle.version_store.specs.Legal.{AreLegal, HasColumns};
ghost use Rattle.version_store.specs.Performing.{Judges, RowsFit, Says};
ghost use Rattle.version_store.specs.declared.limits.TheConstants.{MAX_TABLES};

use crate::changes::Change;
use crate::creating::new_table;
use crate::deleting::deleted;
use crate::faults::{CommitKind, TableFault};
use crate::inserting::inserted;
use crate::kinds::{no_table, table_exists};
use crate::limits::MAX_TABLES;
use crate::partitioning::cut;
use crate::updating::updated;
use paql_ast::conditions::Pred;
use paql_bind::Refusal;
use pq_base::Scaled;
use schema_types::{Column, Lit, Text};
use snapshots::{Shared, Snapshot, Table};
use sqlite_items::Items;
use std::alloc::{AllocError, Global};
use std::marker::Model;

/// The tables as the changes of a commit leave them so far, and the least version that is kept.
/// A change that is refused may leave a part of itself, so that the draft is given up.
#[derive(Drop)]
pub(crate) struct Draft {
    low: u64,
    tables: Items<Shared<Table>>,
}

impl Model for Draft {
    ghost use Rattle.snapshots.specs.States.{State};

    ghost Value = { State };

    ghost view = { λ d. record { low = d.low; tables = d.tables } };
}

impl Draft {
    /// The tables of a version, of which nothing is copied.
    pub(crate) fn of(alloc: Global, low: u64, last: &Snapshot) -> Result<Draft, AllocError>
        ensures { IfOk result
            (λ draft. draft ≡ record { low = low; tables = last.now.tables }) }
    {
        let tables = shared_tables(alloc, last.tables())?;
        Ok(Draft { low, tables })
    }

    /// The least version that is kept.
    pub(crate) fn low(&self) -> u64
        ensures { result ≡ self.now.low }
    {
        self.low
    }

    /// The tables.
    pub(crate) fn into_tables(self) -> Items<Shared<Table>>
        ensures { result ≡ self.tables }
    {
        self.tables
    }

    /// A change of the commit that makes this version, after the version `high`. The number of the
    /// rows that it changes is answered.
    pub(crate) fn perform(
        &mut self,
        alloc: Global,
        high: u64,
        version: u64,
        change: &Change,
    ) -> Result<u64, CommitKind>
        requires legal { AreLegal version self.old.tables }
        requires columns { HasColumns change.now }
        ensures { Performs high version self.old self.new change.now result }
    {
        match change {
            Change::Create { table, columns } => self.create(alloc, table, columns.as_slice()),
            Change::Insert { table, rows } => self.insert(alloc, version, table, rows.as_slice()),
            Change::Update {
                table,
                sets,
                filter,
            } => self.update(alloc, version, table, sets.as_slice(), filter),
            Change::Delete { table, filter } => self.delete(alloc, table, filter),
            Change::Partition {
                table,
                columns,
                size,
                radius,
            } => self.partition(alloc, table, columns.as_slice(), *size, *radius),
            Change::Vacuum { version: least } => self.vacuum(high, *least),
        }
    }
}

impl Draft {
    fn create(&mut self, alloc: Global, table: &Text, columns: &[Column]) -> Result<u64, CommitKind>
        requires some { 0 < length columns.now }
        requires few { length self.old.tables ≤ MAX_TABLES }
        ensures { (high version : ℕ) → Performs high version self.old self.new
            (Change.Create table.now columns.now) result }
    {
        let made = new_table(alloc, table, columns)?;
        self.check_name(alloc, table)?;
        self.check_count()?;
        self.push(alloc, made)?;
        Ok(0)
    }

    fn insert(
        &mut self,
        alloc: Global,
        version: u64,
        table: &Text,
        rows: &[Items<Lit>],
    ) -> Result<u64, CommitKind>
        ensures { (high : ℕ) → Performs high version self.old self.new
            (Change.Insert table.now rows.now) result }
    {
        let place = self.find(alloc, table)?;
        let made = inserted(alloc, version, self.table_at(place), rows)?;
        self.put(alloc, place, made)?;
        Ok(rows.len() as u64)
    }

    fn update(
        &mut self,
        alloc: Global,
        version: u64,
        table: &Text,
        sets: &[(Text, Lit)],
        filter: &Option<Pred>,
    ) -> Result<u64, CommitKind>
        requires { AllByRecursion RowsFit self.old.tables }
        ensures { (high : ℕ) → Performs high version self.old self.new
            (Change.Update table.now sets.now filter.now) result }
    {
        let place = self.find(alloc, table)?;
        let done = updated(alloc, version, self.table_at(place), sets, filter)?;
        self.put(alloc, place, done.0)?;
        Ok(done.1)
    }

    fn delete(
        &mut self,
        alloc: Global,
        table: &Text,
        filter: &Option<Pred>,
    ) -> Result<u64, CommitKind>
        requires { AllByRecursion RowsFit self.old.tables }
        ensures { (high version : ℕ) → Performs high version self.old self.new
            (Change.Delete table.now filter.now) result }
    {
        let place = self.find(alloc, table)?;
        let done = deleted(alloc, self.table_at(place), filter)?;
        self.put(alloc, place, done.0)?;
        Ok(done.1)
    }

    fn partition(
        &mut self,
        alloc: Global,
        table: &Text,
        columns: &[Text],
        size: u64,
        radius: Scaled,
    ) -> Result<u64, CommitKind>
        ensures { (high version : ℕ) → Performs high version self.old self.new
            (Change.Partition table.now columns.now size radius) result }
    {
        let place = self.find(alloc, table)?;
        let made = cut(alloc, self.table_at(place), columns, size, radius)?;
        self.put(alloc, place, made)?;
        Ok(0)
    }

    fn vacuum(&mut self, high: u64, least: u64) -> Result<u64, CommitKind>
        ensures { (version : ℕ)
            → Performs high version self.old self.new (Change.Vacuum least) result }
    {
        let low = self.low;
        if least < low {
            return Err(CommitKind::Unkept {
                asked: least,
                low,
                high,
            });
        }
        if high < least {
            return Err(CommitKind::Unkept {
                asked: least,
                low,
                high,
            });
        }
        self.low = least;
        Ok(0)
    }
}

impl Draft {
    /// The place of a table, unless there is no such table.
    fn find(&self, alloc: Global, table: &Text) -> Result<usize, CommitKind>
        ensures { MatchResult result
            (λ place. IsPlaceOf table.now self.now.tables place)
            (λ kind. (table_named table.now self.now.tables ≡ None)
            × Says (CommitKind.Binding (Refusal.NoTable table.now)) kind) }
    {
        match self.place_of(table) {
            Some(place) => Ok(place),
            None => Err(no_table(alloc, table)),
        }
    }

    fn place_of(&self, table: &Text) -> Option<usize>
        ensures { result ≡ place_named table.now self.now.tables }
    {
        for (place, known) in self.tables.as_slice().iter().enumerate() {
            if known.get().name.as_slice() == table.as_slice() {
                return Some(place);
            }
        }
        None
    }

    fn table_at(&self, place: usize) -> &Table
        requires { place < length self.now.tables }
        ensures { result.now ≡ slice_index_or self.now.tables place result.now }
    {
        self.tables.as_slice()[place].get()
    }

    /// Another table at this place.
    fn put(&mut self, alloc: Global, place: usize, new: Table) -> Result<(), CommitKind>
        requires { place < length self.old.tables }
        ensures { MatchResult result (λ _. IsPut self.old self.new place new) IsMemoryKind }
    {
        let Ok(shared) = Shared::new(alloc, new) else {
            return Err(CommitKind::Memory(AllocError));
        };
        self.tables.set(place, shared);
        Ok(())
    }

    /// A further table.
    fn push(&mut self, alloc: Global, new: Table) -> Result<(), CommitKind>
        ensures { MatchResult result (λ _. IsPushed self.old self.new new) IsMemoryKind }
    {
        let Ok(shared) = Shared::new(alloc, new) else {
            return Err(CommitKind::Memory(AllocError));
        };
        match self.tables.push(shared) {
            Ok(()) => Ok(()),
            Err(error) => Err(CommitKind::Memory(error)),
        }
    }

    /// There is no table of this name yet.
    fn check_name(&self, alloc: Global, table: &Text) -> Result<(), CommitKind>
        ensures { Judges (exists_faults self.now.tables table.now) result }
    {
        match self.place_of(table) {
            Some(_) => Err(table_exists(alloc, table)),
            None => Ok(()),
        }
    }

    /// There is room for a further table.
    fn check_count(&self) -> Result<(), CommitKind>
        requires { length self.now.tables ≤ MAX_TABLES }
        ensures { Judges (tables_faults self.now.tables) result }
    {
        let count = self.tables.len();
        if MAX_TABLES <= count {
            let limit = TableFault::LimitTables(count as u64 + 1);
            return Err(CommitKind::Table(limit));
        }
        Ok(())
    }
}

/// Tables that are shared with those that are given.
fn shared_tables(
    alloc: Global,
    tables: &[Shared<Table>],
) -> Result<Items<Shared<Table>>, AllocError>
    ensures { IfOk result (λ copy. copy ≡ tables.now) }
{
    let mut copy = Vec::with_capacity(alloc, tables.len())?;
    for table in tables {
        copy.push(table.share()?)?;
    }
    Ok(Items::from_vec(copy))
}

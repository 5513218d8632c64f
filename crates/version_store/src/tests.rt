//! A store is made, changed and asked for its versions.
ghost use Rattle.std.specs.Prelude.{◌<◌, length, IfOk};

use crate::{Change, Commit, CommitKind, Committed, MemVault, Vault, VaultFault, VersionStore};
use pq_base::Scaled;
use schema_types::{Column, Kind, Lit, Text};
use sqlite_items::Items;
use std::alloc::{AllocError, Global};
use std::test::*;

fn name(alloc: Global, bytes: &[u8]) -> Result<Text, AllocError> {
    Items::from_slice(alloc, bytes)
}

// One column of whole numbers.
fn column(alloc: Global) -> Result<Items<Column>, AllocError>
    ensures { IfOk result (λ columns. 0 < length columns) }
{
    let mut columns = Items::new(alloc);
    columns.push(Column {
        name: name(alloc, b"v")?,
        kind: Kind::Int,
    })?;
    Ok(columns)
}

fn one() -> Lit {
    Lit::Num(Scaled::of(1, 0))
}

// So many rows of a one.
fn ones(alloc: Global, rows: usize) -> Result<Items<Items<Lit>>, AllocError> {
    let mut list = Items::new(alloc);
    for _ in 0..rows {
        let mut row = Items::new(alloc);
        row.push(one())?;
        list.push(row)?;
    }
    Ok(list)
}

fn create(alloc: Global, commit: &mut Commit) -> Result<(), AllocError> {
    let table = name(alloc, b"T")?;
    let columns = column(alloc)?;
    commit.push(Change::Create { table, columns })
}

fn insert(alloc: Global, commit: &mut Commit, rows: usize) -> Result<(), AllocError> {
    let table = name(alloc, b"T")?;
    let rows = ones(alloc, rows)?;
    commit.push(Change::Insert { table, rows })
}

fn delete(alloc: Global, commit: &mut Commit) -> Result<(), AllocError> {
    let table = name(alloc, b"T")?;
    commit.push(Change::Delete {
        table,
        filter: None,
    })
}

// Every row has a one, as before.
fn update(alloc: Global, commit: &mut Commit) -> Result<(), AllocError> {
    let table = name(alloc, b"T")?;
    let mut sets = Items::new(alloc);
    sets.push((name(alloc, b"v")?, one()))?;
    commit.push(Change::Update {
        table,
        sets,
        filter: None,
    })
}

// A commit that inserts so many rows.
fn inserts(alloc: Global, rows: usize) -> Result<Commit, AllocError> {
    let mut commit = Commit::new(alloc);
    insert(alloc, &mut commit, rows)?;
    Ok(commit)
}

fn vacuum(alloc: Global, version: u64) -> Result<Commit, AllocError> {
    let mut commit = Commit::new(alloc);
    commit.push(Change::Vacuum { version })?;
    Ok(commit)
}

// A commit that makes `T` with two rows.
fn making(alloc: Global) -> Result<Commit, AllocError> {
    let mut commit = Commit::new(alloc);
    create(alloc, &mut commit)?;
    insert(alloc, &mut commit, 2)?;
    Ok(commit)
}

fn made(alloc: Global) -> Result<VersionStore, AllocError> {
    let mut store = VersionStore::new(alloc)?;
    match store.commit(alloc, making(alloc)?) {
        Ok(_) => Ok(store),
        Err(_) => Err(AllocError),
    }
}

// How many rows `T` has in a version, and the id of the last one, if there is one.
fn rows_at(store: &VersionStore, version: u64) -> Option<(usize, u64)> {
    let Ok(snapshot) = store.snapshot_at(version) else {
        return None;
    };
    let rows = snapshot.rows(b"T")?;
    let last = rows.last()?;
    Some((rows.len(), last.0))
}

// What a commit made, if it wasn't refused.
fn done(version: u64, rows: u64) -> Option<Committed> {
    Some(Committed { version, rows })
}

#[test]
fn commits_make_versions_and_ids_go_on(rt: HostRuntime) -> Result<(), Fail> {
    let alloc = rt.alloc();
    let mut store = made(alloc)?;
    let mut commit = Commit::new(alloc);
    delete(alloc, &mut commit)?;
    insert(alloc, &mut commit, 3)?;
    assert_eq!(rt; store.commit(alloc, commit).ok(), done(2, 5));
    assert_eq!(rt; rows_at(&store, 0), None);
    assert_eq!(rt; rows_at(&store, 1), Some((2, 2)));
    assert_eq!(rt; rows_at(&store, 2), Some((3, 5)));
    Ok(())
}

#[test]
fn a_refused_commit_comes_back_whole(rt: HostRuntime) -> Result<(), Fail> {
    let alloc = rt.alloc();
    let mut store = made(alloc)?;
    let mut commit = inserts(alloc, 1)?;
    create(alloc, &mut commit)?;
    match store.commit(alloc, commit) {
        Err((fault, back)) => {
            assert_eq!(rt; fault.change, 2);
            assert!(rt; matches!(fault.kind, CommitKind::Table(_)));
            assert_eq!(rt; back.len(), 2);
        },
        Ok(_) => assert!(rt; false),
    }
    assert_eq!(rt; store.version(), 1);
    assert_eq!(rt; rows_at(&store, 1), Some((2, 2)));
    Ok(())
}

#[test]
fn an_update_keeps_ids_and_counts_equal_rows(rt: HostRuntime) -> Result<(), Fail> {
    let alloc = rt.alloc();
    let mut store = made(alloc)?;
    let mut commit = Commit::new(alloc);
    update(alloc, &mut commit)?;
    assert_eq!(rt; store.commit(alloc, commit).ok(), done(2, 2));
    assert_eq!(rt; rows_at(&store, 2), Some((2, 2)));
    Ok(())
}

#[test]
fn vacuum_gives_up_what_is_before(rt: HostRuntime) -> Result<(), Fail> {
    let alloc = rt.alloc();
    let mut store = made(alloc)?;
    assert_eq!(rt; store.commit(alloc, inserts(alloc, 1)?).ok(), done(2, 1));
    assert_eq!(rt; store.commit(alloc, vacuum(alloc, 2)?).ok(), done(3, 0));
    assert_eq!(rt; store.low(), 2);
    assert_eq!(rt; rows_at(&store, 2), Some((3, 3)));
    assert!(rt;
        matches!(
            store.snapshot_at(1),
            Err(VaultFault::Unkept {
                asked: 1,
                low: 2,
                high: 3
            })
        )
    );
    assert!(rt; matches!(store.snapshot_at(4), Err(VaultFault::Unkept { .. })));
    assert!(rt; store.commit(alloc, vacuum(alloc, 1)?).is_err());
    assert!(rt; store.commit(alloc, vacuum(alloc, 4)?).is_err());
    Ok(())
}

#[test]
fn others_commit_between_calls(rt: HostRuntime) -> Result<(), Fail> {
    let alloc = rt.alloc();
    let mut visits = Vec::new(alloc);
    visits.push(Some(making(alloc)?))?;
    visits.push(None)?;
    visits.push(Some(inserts(alloc, 1)?))?;
    let mut vault = MemVault::new(alloc, 1, visits)?;
    assert_eq!(rt; vault.snapshot()?.version, 1);
    assert_eq!(rt; vault.own(), 0);
    assert_eq!(rt; vault.commit(alloc, inserts(alloc, 3)?).ok(), done(2, 3));
    assert_eq!(rt; vault.own(), 1);
    assert!(rt; vault.commit(alloc, making(alloc)?).is_err());
    assert_eq!(rt; vault.own(), 1);
    assert_eq!(rt; rows_at(vault.store(), 3), Some((6, 6)));
    Ok(())
}

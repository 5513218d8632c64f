//! What a cache keeps.
ghost use Rattle.std.specs.Prelude.{◌≡◌, IfOk};
ghost use Rattle.groups.specs.Caches.{AreOfOne, StaysRight};
ghost use Rattle.groups.specs.Groups.{CanBeGrouped};

use crate::GroupCache;
use crate::tests::version_of;
use pq_base::Scaled;
use snapshots::Snapshot;
use sqlite_items::Items;
use std::alloc::{AllocError, Global};
use std::test::*;

// How many groups the table `T` has.
fn count(cache: &mut GroupCache, alloc: Global, snapshot: &Snapshot) -> Result<usize, AllocError>
    requires one { AreOfOne cache.old snapshot.now }
    requires cut { CanBeGrouped snapshot.now.tables }
    ensures { StaysRight cache.old snapshot.now cache.new }
{
    match cache.get(alloc, snapshot, b"T") {
        Ok(groups) => Ok(groups.len()),
        Err(_) => Err(AllocError),
    }
}

// The same tables as another version.
fn as_version(alloc: Global, snapshot: &Snapshot, version: u64) -> Result<Snapshot, AllocError>
    ensures { IfOk result (λ other.
        other ≡ record { version = version; tables = snapshot.now.tables }) }
{
    let mut tables = Items::new(alloc);
    for table in snapshot.tables() {
        tables.push(table.share()?)?;
    }
    Snapshot::new(alloc, version, tables)
}

#[test]
fn each_version_has_its_groups(rt: HostRuntime) -> Result<(), Fail> {
    let alloc = rt.alloc();
    let first = version_of(alloc, 1, &[0, 1, 10, 11], &[0], 4, Scaled::new(1, 0))?;
    let second = version_of(alloc, 2, &[4, 4], &[0], 4, Scaled::new(1, 0))?;
    let mut cache = GroupCache::new(alloc);
    let before = count(&mut cache, alloc, &first)?;
    let other = count(&mut cache, alloc, &second)?;
    let after = count(&mut cache, alloc, &first)?;
    assert_eq!(rt; before, 2);
    assert_eq!(rt; other, 1);
    assert_eq!(rt; after, 2);
    Ok(())
}

#[test]
fn the_ninth_drops_the_first(rt: HostRuntime) -> Result<(), Fail> {
    let alloc = rt.alloc();
    let tables = version_of(alloc, 0, &[4, 4], &[0], 4, Scaled::new(1, 0))?;
    let mut cache = GroupCache::new(alloc);
    for version in 1..10 {
        let snapshot = as_version(alloc, &tables, version)?;
        count(&mut cache, alloc, &snapshot)?;
    }
    assert_eq!(rt; cache.kept.len(), 8);
    assert_eq!(rt; cache.kept.first().map(|entry| entry.0.1), Some(2));
    Ok(())
}

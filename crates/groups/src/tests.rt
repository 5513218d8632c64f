//! Worked groups.
ghost use Rattle.std.specs.Prelude.{◌≡◌, ◌^◌, ◌<◌, ◌≤◌, [], ◌∷◌, length, unsigned_abs, IfOk};
ghost use Rattle.table_schema.specs.declared.cells.Cell.TheVariants.{Num};
ghost use Rattle.groups.specs.Groups.{CanBeGrouped};
ghost use Rattle.groups.specs.Worked.{AreWorked, two_columns};

use crate::{GroupFault, groups_of};
use pq_base::Scaled;
use quadtree::Group;
use schema_types::{Column, Kind};
use snapshots::{Entries, Partition, Shared, Snapshot, Table};
use sqlite_items::Items;
use std::alloc::{AllocError, Global};
use std::test::*;
use table_schema::{Cell, Row, Schema};

// The columns `v INT` and `w DEC(1)`.
fn schema(alloc: Global) -> Result<Schema, AllocError>
    ensures { IfOk result (λ schema. schema ≡ two_columns) }
{
    let mut columns = Items::new(alloc);
    columns.push(Column {
        name: Items::from_slice(alloc, b"v")?,
        kind: Kind::Int,
    })?;
    columns.push(Column {
        name: Items::from_slice(alloc, b"w")?,
        kind: Kind::Dec(1),
    })?;
    Schema::new(columns).map_err(|_| AllocError)
}

// The same units in both columns.
fn row(alloc: Global, units: i64) -> Result<Row, AllocError>
    ensures { IfOk result (λ row. row ≡ Num units ∷ (Num units ∷ [])) }
{
    let mut row = Items::new(alloc);
    row.push(Cell::Num(units))?;
    row.push(Cell::Num(units))?;
    Ok(row)
}

// The rows of these units, with the ids 1, 2 and so on.
fn entries(alloc: Global, numbers: &[i64]) -> Result<Entries, AllocError>
    ensures { IfOk result (λ entries. AreWorked entries (length numbers.now)) }
{
    let mut list = Entries::new(alloc);
    let mut id = 0u64;
    for units in numbers {
        if units.unsigned_abs() > 1_000_000_000_000 {
            return Err(AllocError);
        }
        id = id.wrapping_add(1);
        list.push(id, row(alloc, *units)?, 1)?;
    }
    Ok(list)
}

// The table `T` of these rows, which is cut by these columns.
fn cut_table(
    alloc: Global,
    numbers: &[i64],
    columns: &[usize],
    size: u64,
    radius: Scaled,
) -> Result<Table, AllocError>
    requires few { length numbers.now ≤ 200_000 }
    requires some { 0 < size }
    requires size { size < 2 ^ 32 }
    requires fine { radius.scale ≤ 6 }
    requires near { unsigned_abs radius.mant ≤ 10 ^ 12 }
    ensures { IfOk result (λ table. CanBeGrouped (table ∷ [])) }
{
    let name = Items::from_slice(alloc, b"T")?;
    let schema = schema(alloc)?;
    let rows = entries(alloc, numbers)?;
    let columns = Items::from_slice(alloc, columns)?;
    Ok(Table {
        name,
        columns: schema,
        next: 1,
        entries: rows,
        partition: Some(Partition {
            columns,
            size,
            radius,
        }),
    })
}

// A version with this table.
pub(crate) fn version_of(
    alloc: Global,
    version: u64,
    numbers: &[i64],
    columns: &[usize],
    size: u64,
    radius: Scaled,
) -> Result<Snapshot, AllocError>
    requires few { length numbers.now ≤ 200_000 }
    requires some { 0 < size }
    requires size { size < 2 ^ 32 }
    requires fine { radius.scale ≤ 6 }
    requires near { unsigned_abs radius.mant ≤ 10 ^ 12 }
    ensures version { IfOk result (λ snapshot. snapshot.version ≡ version) }
    ensures cut { IfOk result (λ snapshot. CanBeGrouped snapshot.tables) }
{
    let table = cut_table(alloc, numbers, columns, size, radius)?;
    let shared = Shared::new(alloc, table)?;
    let mut tables = Items::new(alloc);
    tables.push(shared)?;
    let snapshot = Snapshot::new(alloc, version, tables)?;
    Ok(snapshot)
}

// Writes the members and the representative of a group.
fn tell(alloc: Global, group: &Group, told: &mut Vec<u8>) -> Result<(), AllocError> {
    for member in group.members.as_slice() {
        let digits = member.to_string(alloc)?;
        told.extend_from_slice(digits.as_bytes())?;
        told.push(b' ')?;
    }
    told.push(b'@')?;
    for number in group.rep.as_slice() {
        let digits = number.to_string(alloc)?;
        told.extend_from_slice(digits.as_bytes())?;
        told.push(b' ')?;
    }
    told.push(b';')?;
    Ok(())
}

// The groups of these numbers, as a text.
fn told(
    alloc: Global,
    numbers: &[i64],
    columns: &[usize],
    size: u64,
    radius: Scaled,
) -> Result<Vec<u8>, AllocError>
    requires few { length numbers.now ≤ 200_000 }
    requires some { 0 < size }
    requires size { size < 2 ^ 32 }
    requires fine { radius.scale ≤ 6 }
    requires near { unsigned_abs radius.mant ≤ 10 ^ 12 }
{
    let snapshot = version_of(alloc, 1, numbers, columns, size, radius)?;
    let Ok(groups) = groups_of(alloc, &snapshot, b"T") else {
        return Err(AllocError);
    };
    let mut told = Vec::new(alloc);
    for group in &groups {
        tell(alloc, group, &mut told)?;
    }
    Ok(told)
}

#[test]
fn one_column(rt: HostRuntime) -> Result<(), Fail> {
    let alloc = rt.alloc();
    // five that are equal, with RADIUS 0; none; SIZE 1
    let equal = told(alloc, &[4, 4, 4, 4, 4], &[0], 2, Scaled::new(0, 0))?;
    assert_eq!(rt; equal.as_slice(), b"1 2 @4 ;3 4 @4 ;5 @4 ;".as_slice());
    let none = told(alloc, &[], &[0], 2, Scaled::new(3, 0))?;
    assert_eq!(rt; none.as_slice(), b"".as_slice());
    let alone = told(alloc, &[3, 1, 2], &[0], 1, Scaled::new(9, 0))?;
    assert_eq!(rt; alone.as_slice(), b"2 @1 ;3 @2 ;1 @3 ;".as_slice());
    // the mean of -1 and -2 is rounded down, and so is the radius 0.9
    let negative = told(alloc, &[-1, -2], &[0], 2, Scaled::new(9, 1))?;
    assert_eq!(rt; negative.as_slice(), b"2 @-2 ;1 @-1 ;".as_slice());
    Ok(())
}

#[test]
fn each_column_has_its_units(rt: HostRuntime) -> Result<(), Fail> {
    let alloc = rt.alloc();
    let pairs = told(alloc, &[0, 1, 10, 11], &[0], 4, Scaled::new(1, 0))?;
    assert_eq!(rt; pairs.as_slice(), b"1 2 @0 ;3 4 @10 ;".as_slice());
    let all = told(alloc, &[0, 1, 10, 11], &[1], 4, Scaled::new(1, 0))?;
    assert_eq!(rt; all.as_slice(), b"1 2 3 4 @5 ;".as_slice());
    let both = told(alloc, &[0, 1, 10, 11], &[1, 0], 4, Scaled::new(1, 0))?;
    assert_eq!(rt; both.as_slice(), b"1 2 @0 0 ;3 4 @10 10 ;".as_slice());
    Ok(())
}

#[test]
fn no_partition(rt: HostRuntime) -> Result<(), Fail> {
    let alloc = rt.alloc();
    let snapshot = version_of(alloc, 1, &[], &[0], 2, Scaled::new(3, 0))?;
    let other = groups_of(alloc, &snapshot, b"U").err();
    assert_eq!(rt; other, Some(GroupFault::NoPartition));
    Ok(())
}

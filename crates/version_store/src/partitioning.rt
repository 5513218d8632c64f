//! How a table is cut into groups.
ghost use Rattle.std.specs.Prelude.{◌≡◌, [], IfOk, length, map};
ghost use Rattle.paql_bind.specs.Names.{number_faults};
ghost use Rattle.version_store.specs.Changes.{cut, place_or_zero};
ghost use Rattle.version_store.specs.Faults.{bound_faults, group_faults, is_among, partition_faults, size_faults, width_faults};
ghost use Rattle.version_store.specs.Performing.{Judges, own_group_faults};

use crate::faults::{CommitKind, PartitionFault};
use crate::kinds::{named_twice, no_column, wrong_kind};
use crate::limits::{MAX_PARTITION_COLUMNS, MAX_PARTITION_SIZE};
use crate::naming::{column_named, is_text, place_or_zero};
use crate::tables::with_partition;
use paql_bind::Refusal;
use pq_base::Scaled;
use schema_types::Text;
use snapshots::{Partition, Table};
use sqlite_items::Items;
use std::alloc::{AllocError, Global};
use table_schema::Schema;

/// The most digits after the point of a radius, and the most units of its last digit.
const MAX_RADIUS_SCALE: u8 = 6;

const MAX_RADIUS_UNITS: u128 = 1_000_000_000_000;

/// The table with a partition by these columns.
pub(crate) fn cut(
    alloc: Global,
    table: &Table,
    names: &[Text],
    size: u64,
    radius: Scaled,
) -> Result<Table, CommitKind>
    ensures judged { Judges (partition_faults table.now.columns names.now size radius) result }
    ensures new { IfOk result (λ new. new ≡ cut table.now names.now size radius) }
{
    check_groups(alloc, &table.columns, names)?;
    check_width(names.len())?;
    check_size(size)?;
    check_radius(radius)?;
    with_groups(alloc, table, names, size, radius).map_err(CommitKind::Memory)
}

/// The first fault of the columns, if there is one.
fn check_groups(alloc: Global, schema: &Schema, names: &[Text]) -> Result<(), CommitKind>
    ensures { Judges (group_faults schema.now [] names.now) result }
{
    for (place, name) in names.iter().enumerate() {
        check_group(alloc, schema, &names[..place], name)?;
    }
    Ok(())
}

/// The first fault of a column after others.
fn check_group(
    alloc: Global,
    schema: &Schema,
    before: &[Text],
    name: &Text,
) -> Result<(), CommitKind>
    ensures { Judges (own_group_faults schema.now before.now name.now) result }
{
    let Some(column) = column_named(schema, name) else {
        return Err(no_column(alloc, name));
    };
    if is_text(column.kind) {
        return Err(wrong_kind(alloc, name));
    }
    if is_named(before, name) {
        return Err(named_twice(alloc, name));
    }
    Ok(())
}

/// The column is one of those before.
fn is_named(before: &[Text], name: &Text) -> bool
    ensures { result ≡ is_among name.now before.now }
{
    for other in before {
        if other.as_slice() == name.as_slice() {
            return true;
        }
    }
    false
}

fn check_width(count: usize) -> Result<(), CommitKind>
    ensures { Judges (width_faults count) result }
{
    if MAX_PARTITION_COLUMNS < count {
        return Err(CommitKind::Partition(PartitionFault::Columns(count as u64)));
    }
    Ok(())
}

fn check_size(size: u64) -> Result<(), CommitKind>
    ensures { Judges (size_faults size) result }
{
    if size < 1 {
        return Err(CommitKind::Partition(PartitionFault::Size(size)));
    }
    if MAX_PARTITION_SIZE < size {
        return Err(CommitKind::Partition(PartitionFault::Size(size)));
    }
    Ok(())
}

fn check_radius(radius: Scaled) -> Result<(), CommitKind>
    ensures { Judges (bound_faults (number_faults radius)) result }
{
    if radius.scale > MAX_RADIUS_SCALE {
        return Err(CommitKind::Binding(Refusal::TooFineLiteral));
    }
    if radius.mant.unsigned_abs() > MAX_RADIUS_UNITS {
        return Err(CommitKind::Binding(Refusal::LiteralRange));
    }
    Ok(())
}

/// The table with a partition of which nothing has a fault.
fn with_groups(
    alloc: Global,
    table: &Table,
    names: &[Text],
    size: u64,
    radius: Scaled,
) -> Result<Table, AllocError>
    ensures { IfOk result (λ new. new ≡ cut table.now names.now size radius) }
{
    let columns = places_of(alloc, &table.columns, names)?;
    let partition = Partition {
        columns,
        size,
        radius,
    };
    with_partition(alloc, table, Some(partition))
}

/// The places of the columns: 0 if there is no such column, which is refused before.
fn places_of(alloc: Global, schema: &Schema, names: &[Text]) -> Result<Items<usize>, AllocError>
    ensures { IfOk result (λ places. places ≡ map (place_or_zero schema.now) names.now) }
{
    let mut places = Vec::with_capacity(alloc, names.len())?;
    for name in names {
        places.push(place_or_zero(schema, name))?;
    }
    Ok(Items::from_vec(places))
}

//! The groups of a table.
ghost use Rattle.std.specs.Prelude.{◌≡◌, Some, IfOk, MatchResult};
ghost use Rattle.groups.specs.Groups.{CanBeGrouped, IsCut, IsFaultOf, groups_by, groups_named};

use crate::fault::GroupFault;
use crate::points::points_of;
use crate::radii::radii_of;
use quadtree::{Group, split_points};
use snapshots::{Partition, Snapshot, Table};
use std::alloc::{AllocError, Global};

/// The groups of a table's rows by a partition.
fn split_table(alloc: Global, table: &Table, cut: &Partition) -> Result<Vec<Group>, AllocError>
    requires { IsCut table.now cut.now }
    ensures { IfOk result (λ groups. groups.items ≡ groups_by table.now cut.now) }
{
    let columns = cut.columns.as_slice();
    let points = points_of(alloc, table.entries.rows(), columns)?;
    let radii = radii_of(alloc, table.columns.columns(), columns, cut.radius)?;
    split_points(alloc, &points, cut.size as u32, &radii)
}

/// The groups of a table of a version. That it isn't cut is answered whether or not memory is out.
pub fn groups_of(alloc: Global, snapshot: &Snapshot, table: &[u8]) -> Result<Vec<Group>, GroupFault>
    requires { CanBeGrouped snapshot.now.tables }
    ensures { MatchResult result
        (λ groups. groups_named table.now snapshot.now.tables ≡ Some groups.items)
        (IsFaultOf (groups_named table.now snapshot.now.tables)) }
{
    let Some(found) = snapshot.table(table) else {
        return Err(GroupFault::NoPartition);
    };
    let Some(cut) = found.partition.as_ref() else {
        return Err(GroupFault::NoPartition);
    };
    split_table(alloc, found, cut).map_err(GroupFault::Memory)
}

//! Groups, and groups of points that agree.
ghost use Rattle.std.specs.Prelude.{◌≡◌, ◌<◌, ◌++◌, length, map, IfOk};
ghost use Rattle.quadtree.specs.Points.{Point};
ghost use Rattle.quadtree.specs.Groups.{group_of, ids, runs};
ghost use Rattle.quadtree.specs.Places.{ArePlaces, points_at};

use sqlite_items::Items;
use std::alloc::{AllocError, Global};

/// Points that are near one another, and the point that represents them.
#[derive(Debug, Drop)]
pub struct Group {
    /// The ids of its points, in the order in which the points were given.
    pub members: Items<u64>,
    /// The floored mean of each column.
    pub rep: Items<i64>,
}

/// The ids of the points at these places.
fn ids_of(
    alloc: Global,
    points: &[(u64, Items<i64>)],
    places: &[usize],
) -> Result<Vec<u64>, AllocError>
    requires { ArePlaces points.now places.now }
    ensures { IfOk result (λ members. members.items ≡ ids (points_at points.now places.now)) }
{
    let mut members = Vec::with_capacity(alloc, places.len())?;
    for place in places {
        members.push(points[*place].0)?;
    }
    Ok(members)
}

/// The group of the points at these places.
pub(crate) fn group_of(
    alloc: Global,
    points: &[(u64, Items<i64>)],
    places: &[usize],
    rep: &[i64],
) -> Result<Group, AllocError>
    requires { ArePlaces points.now places.now }
    ensures { IfOk result (λ group. group ≡ group_of rep.now (points_at points.now places.now)) }
{
    let members = ids_of(alloc, points, places)?;
    let rep = Items::from_slice(alloc, rep)?;
    Ok(Group {
        members: Items::from_vec(members),
        rep,
    })
}

/// Adds the groups of so many points each, in their order.
pub(crate) fn add_runs(
    alloc: Global,
    points: &[(u64, Items<i64>)],
    places: &[usize],
    size: usize,
    rep: &[i64],
    groups: &mut Vec<Group>,
) -> Result<(), AllocError>
    requires places { ArePlaces points.now places.now }
    requires size { 0 < size }
    ensures { IfOk result (λ _. groups.new.items ≡ groups.old.items
        ++ map (group_of rep.now) (runs size (points_at points.now places.now))) }
{
    for number in 0..places.len().div_ceil(size) {
        let start = number * size;
        let end = places.len().min(start + size);
        groups.push(group_of(alloc, points, &places[start..end], rep)?)?;
    }
    Ok(())
}

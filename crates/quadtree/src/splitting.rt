//! Points split into groups.
ghost use Rattle.std.specs.Prelude.{◌≡◌, ◌<◌, ◌≤◌, length, All, IfOk};
ghost use Rattle.std.specs.List.{range_with_len};
ghost use Rattle.quadtree.specs.Points.{are_equal, means};
ghost use Rattle.quadtree.specs.Groups.{groups_of, is_group};
ghost use Rattle.quadtree.specs.Places.{ArePlaces, IsAdded, IsFit, points_at};

use crate::columns::{are_equal, are_near, means};
use crate::dividing::{Room, add_length, divide, move_reversed};
use crate::group::{Group, add_runs, group_of};
use sqlite_items::Items;
use std::alloc::{AllocError, Global};

/// Whether points are few enough, and near enough to their representative.
fn is_group(
    points: &[(u64, Items<i64>)],
    places: &[usize],
    size: usize,
    radius: &[i64],
    rep: &[i64],
) -> bool
    requires places { ArePlaces points.now places.now }
    requires points { All (IsFit (length radius.now)) points.now }
    requires rep { rep.now ≡ means (length radius.now) (points_at points.now places.now) }
    ensures { result ≡ is_group size radius.now (points_at points.now places.now) }
{
    places.len() <= size && are_near(points, places, rep, radius)
}

/// Adds the groups of points that aren't to be divided, and answers whether these are such points.
fn add_groups(
    alloc: Global,
    points: &[(u64, Items<i64>)],
    places: &[usize],
    size: usize,
    radius: &[i64],
    rep: &[i64],
    groups: &mut Vec<Group>,
) -> Result<bool, AllocError>
    requires places { ArePlaces points.now places.now }
    requires points { All (IsFit (length radius.now)) points.now }
    requires size { 0 < size }
    requires some { 0 < length places.now }
    requires rep { rep.now ≡ means (length radius.now) (points_at points.now places.now) }
    ensures { IfOk result (λ is_done. IsAdded size radius.now (points_at points.now places.now)
        groups.old.items is_done groups.new.items) }
{
    if is_group(points, places, size, radius, rep) {
        groups.push(group_of(alloc, points, places, rep)?)?;
        return Ok(true);
    }
    if are_equal(points, places, radius.len()) {
        add_runs(alloc, points, places, size, rep, groups)?;
        return Ok(true);
    }
    Ok(false)
}

/// The places of so many points.
fn all_places(alloc: Global, count: usize) -> Result<Vec<usize>, AllocError>
    ensures { IfOk result (λ places. places.items ≡ range_with_len 0 count) }
{
    let mut places = Vec::with_capacity(alloc, count)?;
    for place in 0..count {
        places.push(place)?;
    }
    Ok(places)
}

/// The groups of points, from all their places in order. Each turn looks at the first part that is left, and either adds
/// its groups or divides it. The pending lengths are those of the parts that are left, the first last.
fn split_places(
    alloc: Global,
    points: &[(u64, Items<i64>)],
    places: &mut [usize],
    size: usize,
    radius: &[i64],
) -> Result<Vec<Group>, AllocError>
    requires points { All (IsFit (length radius.now)) points.now }
    requires few { length points.now ≤ 200_000 }
    requires size { 0 < size }
    requires places { places.old ≡ range_with_len 0 (length points.now) }
    ensures { IfOk result (λ groups. groups.items ≡ groups_of size radius.now points.now) }
{
    let mut pending = Vec::new(alloc);
    add_length(&mut pending, points.len())?;
    let mut room = Room::new(alloc);
    let mut groups = Vec::new(alloc);
    let mut start = 0;
    while let Some(length) = pending.pop() {
        let end = start + length;
        let rep = means(alloc, points, &places[start..end], radius.len())?;
        let part = &places[start..end];
        let is_done = add_groups(alloc, points, part, size, radius, &rep, &mut groups)?;
        if is_done {
            start = end;
            continue;
        }
        divide(points, &rep, &mut places[start..end], &mut room)?;
        move_reversed(&mut room.lengths, &mut pending)?;
    }
    Ok(groups)
}

/// The groups of points: each has at most `size` members within the radius of its representative, one radius a column.
/// The ids ascend.
pub fn split_points(
    alloc: Global,
    points: &[(u64, Items<i64>)],
    size: u32,
    radius: &[i64],
) -> Result<Vec<Group>, AllocError>
    requires points { All (IsFit (length radius.now)) points.now }
    requires few { length points.now ≤ 200_000 }
    requires size { 0 < size }
    ensures { IfOk result (λ groups. groups.items ≡ groups_of size radius.now points.now) }
{
    let mut places = all_places(alloc, points.len())?;
    split_places(alloc, points, &mut places, size as usize, radius)
}

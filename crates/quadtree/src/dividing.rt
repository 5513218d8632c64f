//! Points divided by the means of their columns, in place.
ghost use Rattle.std.specs.Prelude.{◌≡◌, ◌<◌, ◌≤◌, ◌++◌, ◌∷◌, [], List, length, reverse, All, IfOk, if◌then◌else◌, ◌==◌};
ghost use Rattle.std.specs.List.{flat_map};
ghost use Rattle.quadtree.specs.Points.{Point, is_above, means};
ghost use Rattle.quadtree.specs.Groups.{halves, parts};
ghost use Rattle.quadtree.specs.Places.{ArePlaces, HasColumn, HasCut, IsCut, IsFit, IsParted, is_place_above, points_at};

use crate::columns::is_above;
use sqlite_items::Items;
use std::alloc::{AllocError, Global};

/// Room to divide points in.
#[derive(Debug, Drop)]
pub(crate) struct Room {
    /// The numbers of points of the parts.
    pub lengths: Vec<usize>,
    /// The same, by one column more.
    next: Vec<usize>,
    /// Places of points above a mean.
    above: Vec<usize>,
}

impl Room {
    pub(crate) fn new(alloc: Global) -> Room {
        Room {
            lengths: Vec::new(alloc),
            next: Vec::new(alloc),
            above: Vec::new(alloc),
        }
    }
}

/// Puts the points above a mean after the others, and keeps the order of each half. Answers how many the others are.
fn part_by(
    points: &[(u64, Items<i64>)],
    column: usize,
    mean: i64,
    places: &mut [usize],
    above: &mut Vec<usize>,
) -> Result<usize, AllocError>
    requires places { ArePlaces points.now places.old }
    requires points { All (HasColumn column) points.now }
    ensures { IfOk result (λ middle.
        IsParted (is_place_above points.now mean column) places.old middle places.new) }
{
    above.clear();
    let mut middle = 0;
    for at in 0..places.len() {
        let place = places[at];
        if is_above(points, place, column, mean) {
            above.push(place)?;
            continue;
        }
        places[middle] = place;
        middle += 1;
    }
    places[middle..].copy_from_slice(above.as_slice());
    Ok(middle)
}

/// Adds a length, if it isn't 0.
pub(crate) fn add_length(lengths: &mut Vec<usize>, length: usize) -> Result<(), AllocError>
    ensures { IfOk result (λ _. lengths.new.items
        ≡ lengths.old.items ++ (if length == 0 then [] else length ∷ [])) }
{
    if length > 0 {
        lengths.push(length)?;
    }
    Ok(())
}

/// Moves lengths, the last first.
pub(crate) fn move_reversed(
    more: &mut Vec<usize>,
    lengths: &mut Vec<usize>,
) -> Result<(), AllocError>
    ensures { IfOk result (λ _. lengths.new.items ≡ lengths.old.items ++ reverse more.old.items) }
{
    while let Some(length) = more.pop() {
        lengths.push(length)?;
    }
    Ok(())
}

/// Divides each list of points by a mean of a column.
fn divide_by(
    points: &[(u64, Items<i64>)],
    column: usize,
    mean: i64,
    places: &mut [usize],
    lengths: &[usize],
    next: &mut Vec<usize>,
    above: &mut Vec<usize>,
) -> Result<(), AllocError>
    requires places { ArePlaces points.now places.old }
    requires points { All (HasColumn column) points.now }
    requires cut { HasCut (points_at points.now places.old) lengths.now }
    ensures places { IfOk result (λ _. ArePlaces points.now places.new) }
    ensures lists { IfOk result (λ _. (lists : List (List Point))
        → IsCut (points_at points.now places.old) lengths.now lists
        → IsCut (points_at points.now places.new) next.new.items
        (flat_map (halves (is_above mean column)) lists)) }
{
    next.clear();
    let mut start = 0;
    for length in lengths {
        let end = start + *length;
        let middle = part_by(points, column, mean, &mut places[start..end], above)?;
        add_length(next, middle)?;
        add_length(next, *length - middle)?;
        start = end;
    }
    Ok(())
}

/// Divides points by the means of all columns. The lengths of the parts are then in the room.
pub(crate) fn divide(
    points: &[(u64, Items<i64>)],
    rep: &[i64],
    places: &mut [usize],
    room: &mut Room,
) -> Result<(), AllocError>
    requires places { ArePlaces points.now places.old }
    requires points { All (IsFit (length rep.now)) points.now }
    requires rep { rep.now ≡ means (length rep.now) (points_at points.now places.old) }
    ensures places { IfOk result (λ _. ArePlaces points.now places.new) }
    ensures lists { IfOk result (λ _. IsCut (points_at points.now places.new) room.new.lengths.items
        (parts (length rep.now) (points_at points.now places.old))) }
{
    room.lengths.clear();
    room.lengths.push(places.len())?;
    for column in 0..rep.len() {
        let Room {
            lengths,
            next,
            above,
        } = room;
        divide_by(points, column, rep[column], places, lengths, next, above)?;
        std::mem::swap(lengths, next);
    }
    Ok(())
}

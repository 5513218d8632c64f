//! The columns of points: means, and tests of all points.
ghost use Rattle.std.specs.Prelude.{◌≡◌, ◌^◌, ◌*◌, ◌<◌, ◌≤◌, length, All, IfOk, unsigned_abs};
ghost use Rattle.std.specs.List.{list_all};
ghost use Rattle.quadtree.specs.Points as spec;
ghost use Rattle.quadtree.specs.Points.{agree, coordinate, is_above, is_at, is_near};
ghost use Rattle.quadtree.specs.Places.{ArePlaces, HasColumn, IsFit, point_at, points_at};

use sqlite_items::Items;
use std::alloc::{AllocError, Global};

/// The coordinate of the point at a place.
fn coordinate(points: &[(u64, Items<i64>)], place: usize, column: usize) -> i64
    requires place { place < length points.now }
    requires points { All (HasColumn column) points.now }
    ensures value { result ≡ coordinate column (point_at points.now place) }
    ensures small { unsigned_abs result ≤ 10 ^ 12 }
{
    points[place].1.as_slice()[column]
}

/// Whether the coordinate of the point at a place is above a mean.
pub(crate) fn is_above(points: &[(u64, Items<i64>)], place: usize, column: usize, mean: i64) -> bool
    requires place { place < length points.now }
    requires points { All (HasColumn column) points.now }
    ensures { result ≡ is_above mean column (point_at points.now place) }
{
    coordinate(points, place, column) > mean
}

/// Whether the coordinate of the point at a place is within the radius of a mean.
fn is_near(
    points: &[(u64, Items<i64>)],
    place: usize,
    column: usize,
    mean: i64,
    radius: i64,
) -> bool
    requires place { place < length points.now }
    requires points { All (HasColumn column) points.now }
    ensures { result ≡ is_near mean radius column (point_at points.now place) }
{
    let number = i128::from(coordinate(points, place, column));
    (number - i128::from(mean)).abs() <= i128::from(radius)
}

/// Whether the coordinate of the point at a place is this number.
fn is_at(points: &[(u64, Items<i64>)], place: usize, column: usize, number: i64) -> bool
    requires place { place < length points.now }
    requires points { All (HasColumn column) points.now }
    ensures { result ≡ is_at number column (point_at points.now place) }
{
    coordinate(points, place, column) == number
}

/// The sum of a column.
fn column_sum(points: &[(u64, Items<i64>)], places: &[usize], column: usize) -> i64
    requires places { ArePlaces points.now places.now }
    requires points { All (HasColumn column) points.now }
    requires few { length places.now ≤ 200_000 }
    ensures value { result ≡ spec.column_sum column (points_at points.now places.now) }
    ensures small { unsigned_abs result ≤ 200_000 * 10 ^ 12 }
{
    let mut sum = 0;
    for place in places {
        sum += coordinate(points, *place, column);
    }
    sum
}

/// The mean of a column, rounded down.
fn floored_mean(points: &[(u64, Items<i64>)], places: &[usize], column: usize) -> i64
    requires places { ArePlaces points.now places.now }
    requires points { All (HasColumn column) points.now }
    requires some { 0 < length places.now }
    requires few { length places.now ≤ 200_000 }
    ensures { result ≡ spec.floored_mean column (points_at points.now places.now) }
{
    column_sum(points, places, column).div_euclid(places.len() as i64)
}

/// The mean of each column, rounded down.
pub(crate) fn means(
    alloc: Global,
    points: &[(u64, Items<i64>)],
    places: &[usize],
    columns: usize,
) -> Result<Vec<i64>, AllocError>
    requires places { ArePlaces points.now places.now }
    requires points { All (IsFit columns) points.now }
    requires some { 0 < length places.now }
    requires few { length places.now ≤ 200_000 }
    ensures { IfOk result (λ rep.
        rep.items ≡ spec.means columns (points_at points.now places.now)) }
{
    let mut rep = Vec::with_capacity(alloc, columns)?;
    for column in 0..columns {
        rep.push(floored_mean(points, places, column))?;
    }
    Ok(rep)
}

/// Whether each point is near the mean in a column.
fn is_column_near(
    points: &[(u64, Items<i64>)],
    places: &[usize],
    column: usize,
    mean: i64,
    radius: i64,
) -> bool
    requires places { ArePlaces points.now places.now }
    requires points { All (HasColumn column) points.now }
    ensures { result ≡ list_all (is_near mean radius column) (points_at points.now places.now) }
{
    for place in places {
        if !is_near(points, *place, column, mean, radius) {
            return false;
        }
    }
    true
}

/// Whether each point is near the means in each column.
pub(crate) fn are_near(
    points: &[(u64, Items<i64>)],
    places: &[usize],
    rep: &[i64],
    radius: &[i64],
) -> bool
    requires places { ArePlaces points.now places.now }
    requires points { All (IsFit (length radius.now)) points.now }
    requires means { rep.now ≡ spec.means (length radius.now) (points_at points.now places.now) }
    ensures { result ≡ spec.are_near radius.now (points_at points.now places.now) }
{
    for column in 0..radius.len() {
        if !is_column_near(points, places, column, rep[column], radius[column]) {
            return false;
        }
    }
    true
}

/// Whether all points agree in a column.
fn agree(points: &[(u64, Items<i64>)], places: &[usize], column: usize) -> bool
    requires places { ArePlaces points.now places.now }
    requires points { All (HasColumn column) points.now }
    requires some { 0 < length places.now }
    ensures { result ≡ agree (points_at points.now places.now) column }
{
    let number = coordinate(points, places[0], column);
    for place in places {
        if !is_at(points, *place, column, number) {
            return false;
        }
    }
    true
}

/// Whether all points agree in all columns.
pub(crate) fn are_equal(points: &[(u64, Items<i64>)], places: &[usize], columns: usize) -> bool
    requires places { ArePlaces points.now places.now }
    requires points { All (IsFit columns) points.now }
    requires some { 0 < length places.now }
    ensures { result ≡ spec.are_equal columns (points_at points.now places.now) }
{
    for column in 0..columns {
        if !agree(points, places, column) {
            return false;
        }
    }
    true
}

//! Where along a direction the dual bound stops to fall.

use crate::columns::Column;
use crate::fixed::MOST;
use std::alloc::AllocError;

/// Slopes below this are taken for 0.
const LEAST_SLOPE: i64 = 1 << 10;

/// By how many bits slopes shrink when they are added up.
pub(crate) const SLOPE_SHIFT: i32 = 8;

/// How many bits of a value are after the point.
pub(crate) const VALUE_FRACTION: i32 = 20;

/// A part of at most this many breakpoints is sorted.
const SHORT: usize = 512;

/// Where the sign of a column's reduced cost turns.
#[derive(Clone, Copy, Debug)]
pub(crate) struct Breakpoint {
    /// How far along the direction, as a number of the same order.
    distance: u64,
    /// What the slope grows by there.
    weight: i128,
    pub column: usize,
    /// The size of the column's slope.
    slope: i64,
    pub is_at_once: bool,
}

/// A quotient as a number of the same order: an exponent, and 32 bits of the quotient.
fn quotient_key(number: u64, divisor: u64) -> u64 {
    if number == 0 {
        return 0;
    }
    let (zeros, divisor_zeros) = (number.leading_zeros(), divisor.leading_zeros());
    let top = number.wrapping_shl(zeros) >> 1;
    let bottom = divisor.wrapping_shl(divisor_zeros) >> 32;
    let quotient = top.checked_div(bottom).unwrap_or(u64::MAX);
    let exponent = u64::from(divisor_zeros.saturating_add(64).saturating_sub(zeros));
    if quotient < 1 << 31 {
        return (exponent.saturating_sub(1) << 32).wrapping_add(quotient << 1);
    }
    (exponent << 32).wrapping_add(quotient)
}

/// How much a column can move, in fixed point.
fn room_of(column: &Column) -> i128 {
    (i128::from(column.high) - i128::from(column.low)) << VALUE_FRACTION
}

/// The breakpoint of a column, if it has one.
fn breakpoint_of(place: usize, column: &Column) -> Option<Breakpoint> {
    let slope = if column.is_high {
        column.slope
    } else {
        column.slope.saturating_neg()
    };
    if column.is_basic || slope < LEAST_SLOPE || column.low >= column.high {
        return None;
    }
    let size = i128::from(slope >> SLOPE_SHIFT);
    let room = room_of(column);
    let weight = if room < MOST {
        size.wrapping_mul(room)
    } else {
        size.saturating_mul(room)
    };
    Some(Breakpoint {
        distance: quotient_key(column.reduced.unsigned_abs(), slope.unsigned_abs()),
        weight,
        column: place,
        slope,
        is_at_once: column.reduced == 0,
    })
}

/// Finds the breakpoints of the columns, in the room of the list.
pub(crate) fn find_breakpoints(
    columns: &[Column],
    points: &mut Vec<Breakpoint>,
) -> Result<(), AllocError> {
    points.clear();
    for (place, column) in columns.iter().enumerate() {
        if let Some(point) = breakpoint_of(place, column) {
            points.push(point)?;
        }
    }
    Ok(())
}

/// The steepest of the breakpoints that are as far as one of them.
fn steepest(points: &[Breakpoint], first: Breakpoint) -> Breakpoint {
    let mut best = first;
    for point in points {
        if point.distance == first.distance && point.slope > best.slope {
            best = *point;
        }
    }
    best
}

/// A part of a list of breakpoints, and the slope before it. Those before the part are no farther, and those after it
/// no nearer, than those in it.
#[derive(Clone, Copy, Debug)]
struct Part {
    start: usize,
    end: usize,
    slope: i128,
}

/// The slope after some breakpoints.
fn slope_after(points: &[Breakpoint], slope: i128) -> i128 {
    let mut slope = slope;
    for point in points {
        slope = slope.saturating_add(point.weight);
    }
    slope
}

/// The half of a part in which the slope turns, if it turns in the part.
fn halved(points: &mut [Breakpoint], part: Part) -> Part {
    let end = part.end.min(points.len());
    let start = part.start.min(end);
    let half = (end - start) / 2;
    if half == 0 {
        return part;
    }
    let _ = points[start..end].select_nth_unstable_by_key(half, |point| point.distance);
    let slope = slope_after(&points[start..start + half], part.slope);
    if slope < 0 {
        return Part {
            start: start + half,
            end,
            slope,
        };
    }
    Part {
        start,
        end: start + half,
        slope: part.slope,
    }
}

/// A short part in which the slope turns, if it turns at all. It takes a few passes over the list.
fn short_part(points: &mut [Breakpoint], slope: i128) -> Part {
    let mut part = Part {
        start: 0,
        end: points.len(),
        slope,
    };
    for _ in 0..usize::BITS {
        if part.end.saturating_sub(part.start) <= SHORT {
            return part;
        }
        part = halved(points, part);
    }
    part
}

/// The first of some breakpoints where the slope comes to 0 or above.
fn first_turn(points: &[Breakpoint], slope: i128) -> Option<Breakpoint> {
    let mut slope = slope;
    for point in points {
        slope = slope.saturating_add(point.weight);
        if slope >= 0 {
            return Some(*point);
        }
    }
    None
}

/// The breakpoint where a slope below 0 comes to 0 or above, if one does. It changes the order of the list.
/// See Maros, Computational Techniques of the Simplex Method (2003), section 10.2 (the long step).
pub(crate) fn turning_point(points: &mut [Breakpoint], slope: i128) -> Option<Breakpoint> {
    let part = short_part(points, slope);
    let end = part.end.min(points.len());
    let start = part.start.min(end);
    points[start..end].sort_unstable_by_key(|point| point.distance);
    let found = first_turn(&points[start..end], part.slope)?;
    Some(steepest(points, found))
}

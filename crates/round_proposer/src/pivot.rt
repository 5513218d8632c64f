//! The row by which changes are joined: the one that leaves them the least choice.

use crate::fixed::MOST;
use crate::near::{Near, Row};

/// A row, and how far below its side a point may leave it, if that is known.
#[derive(Clone, Copy, Debug)]
pub(crate) struct Pivot {
    pub row: usize,
    pub width: Option<i64>,
}

/// Rows of coefficients of at most so many bits say little.
const FEW_BITS: u32 = 4;

/// How much a point may leave of a row: by the gap to the best one, or by what its width says.
pub(crate) fn room_of(row: &Row, near: &Near, gap: i64, is_known: bool) -> i128 {
    let width = row.width.map_or(2 * MOST, i128::from);
    if row.multiplier == 0 {
        return width;
    }
    if !is_known {
        return width.min(1i128.wrapping_shl(row.bits.min(62)));
    }
    let full = i128::from(gap).wrapping_shl(near.shift.min(64));
    width.min(full.checked_div(i128::from(row.multiplier)).unwrap_or(0))
}

/// That room over the row's greatest coefficient.
fn narrowness(row: &Row, near: &Near, gap: i64, is_known: bool) -> i128 {
    (room_of(row, near, gap, is_known).clamp(0, 2 * MOST) << 30).wrapping_shr(row.bits.min(127))
}

/// The narrowest row of those that say enough, or the first one.
pub(crate) fn pivot_of(near: &Near, gap: i64, is_known: bool) -> Option<Pivot> {
    let first = near.rows.first()?;
    let mut best = None;
    let mut least = i128::MAX;
    for (place, row) in near.rows.iter().enumerate() {
        if row.bits <= FEW_BITS && near.rows.len() > 1 {
            continue;
        }
        let found = narrowness(row, near, gap, is_known);
        if found < least {
            least = found;
            best = Some(Pivot {
                row: place,
                width: row.width,
            });
        }
    }
    let fallback = Pivot {
        row: 0,
        width: first.width,
    };
    Some(best.unwrap_or(fallback))
}

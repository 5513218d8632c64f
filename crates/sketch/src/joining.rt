//! The parts' real counts, put together to a point of the whole problem.
ghost use Rattle.std.specs.Prelude.{◌≡◌, ◌<◌, ℕ, length, IfOk};
ghost use Rattle.lin_bound.specs.Problem.{IsLegal};
ghost use Rattle.lin_bound.specs.Sums.{nat_at};
ghost use Rattle.sketch.specs.Parts.{ArePartsOf};
ghost use Rattle.sketch.specs.Joined.{AreAsLong, AreOnce, IsJoined, IsSpread};

use lin_bound::{Point, Problem};
use sqlite_items::Items;
use std::alloc::{AllocError, Global};

/// Puts a part's counts at its members.
fn spread(part: &[u32], counts: &[u64], point: &mut Items<u64>)
    requires same { length counts.now ≡ length part.now }
    requires members { AreOnce part.now (length point.old) }
    ensures length { length point.new ≡ length point.old }
    ensures spread { IsSpread part.now counts.now point.old point.new }
{
    for place in 0..part.len() {
        point.set(part[place] as usize, counts[place]);
    }
}

/// The point in which the count of a variable is the count at its place in its part.
pub fn joined(
    alloc: Global,
    problem: &Problem,
    parts: &[Items<u32>],
    counts: &[Items<u64>],
) -> Result<Point, AllocError>
    requires parts { ArePartsOf problem.now parts.now }
    requires counts { AreAsLong parts.now counts.now }
    ensures { IfOk result (λ point. IsJoined problem.now parts.now counts.now point) }
{
    let mut point = Items::from_vec(vec![in alloc; 0u64; problem.variables()]?);
    for place in 0..parts.len() {
        spread(
            parts[place].as_slice(),
            counts[place].as_slice(),
            &mut point,
        );
    }
    Ok(Point::new(point))
}

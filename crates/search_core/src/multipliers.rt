//! Multipliers that are written over others, in the room that these have.
ghost use Rattle.std.specs.Prelude.{◌≡◌, ◌+◌, ◌≤◌, length, replicate, MatchBool};
ghost use Rattle.lin_bound.specs.Problem.{row_count};
ghost use Rattle.lin_bound.specs.Box.{IsRegion};
ghost use Rattle.lin_bound.specs.Bound.{IsMult, plain};
ghost use Rattle.search_core.specs.Boxes.{IsOpenBelow, IsPlainlyClosed};

use lin_bound::{Mult, Problem, Region, plain_closing};
use sqlite_items::Items;

/// Makes every multiplier zero.
fn clear(lambda: &mut Items<u32>)
    ensures { lambda.new ≡ replicate (length lambda.old) 0 }
{
    for row in 0..lambda.len() {
        lambda.set(row, 0);
    }
}

/// Makes them the plain multipliers of a number.
pub fn choose_plain(problem: &Problem, number: usize, mult: &mut Mult)
    requires number { number ≤ row_count problem.now }
    requires room { length mult.old.lambda ≡ row_count problem.now }
    ensures value { mult.new ≡ plain problem.now number }
    ensures mult { IsMult problem.now mult.new }
{
    clear(&mut mult.lambda);
    mult.d = u32::from(number == 0);
    if number > 0 {
        mult.lambda.set(number - 1, 1);
    }
}

/// Whether some plain multipliers close the box; they become the first that do.
pub fn is_closed(problem: &Problem, region: &Region, best: Option<i64>, mult: &mut Mult) -> bool
    requires region { IsRegion problem.now region.now }
    requires mult { IsMult problem.now mult.old }
    ensures mult { IsMult problem.now mult.new }
    ensures yes { MatchBool result (IsPlainlyClosed problem.now region.now best mult.new)
        (IsOpenBelow problem.now region.now best (row_count problem.now + 1)) }
{
    let Some(number) = plain_closing(problem, region, best) else {
        return false;
    };
    choose_plain(problem, number, mult);
    true
}

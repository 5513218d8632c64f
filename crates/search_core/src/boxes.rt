//! Where a box has room, and boxes that are written over others, in the room that these have.
ghost use Rattle.std.specs.Prelude.{◌≡◌, ◌+◌, ◌/◌, ◌<◌, length, replicate, MatchOption};
ghost use Rattle.lin_bound.specs.Sums.{nat_at};
ghost use Rattle.lin_bound.specs.Box.{whole_box, box_at, IsPath, IsRegion};
ghost use Rattle.search_core.specs.Boxes.{HasRoom, IsFirstRoom, HasNoRoom};

use lin_bound::{Path, Problem, Region};
use sqlite_items::Items;

/// The first variable with more than one count in the box.
pub fn first_wide(region: &Region) -> Option<usize>
    requires { length region.now.low ≡ length region.now.high }
    ensures { MatchOption result (HasNoRoom region.now)
        (λ variable. IsFirstRoom region.now variable) }
{
    let low = region.low.as_slice();
    let high = region.high.as_slice();
    for variable in 0..low.len() {
        if low[variable] < high[variable] {
            return Some(variable);
        }
    }
    None
}

/// The number in the middle of a variable's counts, rounded down.
pub fn middle_of(region: &Region, variable: usize) -> u64
    requires same { length region.now.low ≡ length region.now.high }
    requires room { HasRoom region.now variable }
    ensures { result ≡ (nat_at region.now.low variable + nat_at region.now.high variable) / 2 }
{
    let low = region.low.as_slice()[variable];
    let high = region.high.as_slice()[variable];
    low + (high - low) / 2
}

/// Makes every count zero.
fn clear(counts: &mut Items<u64>)
    ensures { counts.new ≡ replicate (length counts.old) 0 }
{
    for place in 0..counts.len() {
        counts.set(place, 0);
    }
}

/// Copies counts over others, in the room that these have.
fn overwrite(from: &[u64], into: &mut Items<u64>)
    requires { length from.now ≡ length into.old }
    ensures { into.new ≡ from.now }
{
    for place in 0..from.len() {
        into.set(place, from[place]);
    }
}

/// Makes it the whole box.
fn widen(problem: &Problem, region: &mut Region)
    requires { IsRegion problem.now region.old }
    ensures value { region.new ≡ whole_box problem.now }
    ensures region { IsRegion problem.now region.new }
{
    clear(&mut region.low);
    overwrite(problem.uppers(), &mut region.high);
}

/// Makes it the box that a path leads to. It takes no memory.
pub fn move_to(problem: &Problem, path: &Path, region: &mut Region)
    requires path { IsPath problem.now path.now }
    requires region { IsRegion problem.now region.old }
    ensures value { region.new ≡ box_at problem.now path.now }
    ensures region { IsRegion problem.now region.new }
{
    widen(problem, region);
    for place in 0..path.len() {
        region.narrow(path.branch(place));
    }
}

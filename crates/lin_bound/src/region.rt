//! Boxes of points, and the box that a path leads to.
ghost use Rattle.std.specs.Prelude.{◌≡◌, ◌↔◌, IsTrue, length, IfOk};
ghost use Rattle.lin_bound.specs.Box.{whole_box, half, box_at, Splits, IsPath, IsTriedBox, IsRegion};

use crate::path::{Branch, Path};
use crate::problem::Problem;
use sqlite_items::Items;
use std::alloc::{AllocError, Global};

/// The points x with low_i <= x_i <= high_i.
#[derive(Debug, Drop)]
pub struct Region {
    pub low: Items<u64>,
    pub high: Items<u64>,
}

impl Region {
    /// Whether the branch divides the box: its variable has room on both sides of `at`.
    pub fn is_split_by(&self, branch: Branch) -> bool
        requires { length self.now.low ≡ length self.now.high }
        ensures { IsTrue result ↔ Splits branch self.now }
    {
        let variable = branch.var as usize;
        let low = self.low.as_slice();
        let high = self.high.as_slice();
        variable < low.len() && low[variable] <= branch.at && branch.at < high[variable]
    }

    /// Keeps the half of the box that the branch names, and takes no memory.
    pub fn narrow(&mut self, branch: Branch)
        requires same { length self.old.low ≡ length self.old.high }
        requires splits { Splits branch self.old }
        ensures { self.new ≡ half branch self.old }
    {
        let variable = branch.var as usize;
        let _top = self.high.as_slice()[variable];
        if branch.high {
            self.low.set(variable, branch.at + 1);
        } else {
            self.high.set(variable, branch.at);
        }
    }
}

/// The points within the uppers.
fn whole(alloc: Global, problem: &Problem) -> Result<Region, AllocError>
    ensures value { IfOk result (λ region. region ≡ whole_box problem.now) }
    ensures region { IfOk result (λ region. IsRegion problem.now region) }
{
    let low = vec![in alloc; 0u64; problem.variables()]?;
    let high = Items::from_slice(alloc, problem.uppers())?;
    Ok(Region {
        low: Items::from_vec(low),
        high,
    })
}

/// The box that is left after each branch of the path in turn.
pub fn box_of(alloc: Global, problem: &Problem, path: &Path) -> Result<Region, AllocError>
    requires { IsPath problem.now path.now }
    ensures value { IfOk result (λ region. region ≡ box_at problem.now path.now) }
    ensures region { IfOk result (λ region. IsRegion problem.now region) }
{
    let mut region = whole(alloc, problem)?;
    for place in 0..path.len() {
        region.narrow(path.branch(place));
    }
    Ok(region)
}

/// The box of a path, as `box_of` gives it, or none if a branch doesn't divide the box that those before it leave.
pub fn try_box_of(
    alloc: Global,
    problem: &Problem,
    path: &Path,
) -> Result<Option<Region>, AllocError>
    ensures { IfOk result (λ found. IsTriedBox problem.now path.now found) }
{
    let mut region = whole(alloc, problem)?;
    for place in 0..path.len() {
        let branch = path.branch(place);
        if !region.is_split_by(branch) {
            return Ok(None);
        }
        region.narrow(branch);
    }
    Ok(Some(region))
}

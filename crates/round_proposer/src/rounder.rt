//! Points of a box that are likely to be good ones.
ghost use Rattle.std.specs.Prelude.{◌≡◌, ◌≤◌, ℕ, List, length, All, IfOk};
ghost use Rattle.lin_bound.specs.Box.{IsRegion};
ghost use Rattle.lin_bound.specs.Bound.{IsMult};
ghost use Rattle.round_proposer.specs.Points.{IsPointOf};

use crate::best::{Best, Draft};
use crate::greedy::{Descent, descend};
use crate::join::{Limits, join_changes};
use crate::near::{Near, resting};
use crate::weights::Weights;
use lin_bound::{Mult, Point, Problem, Region};
use sqlite_items::Items;
use std::alloc::{AllocError, Global};

/// How many points are offered at most.
pub const MOST_POINTS: usize = 8;

/// What the whole box of a problem is worth.
const WHOLE: Limits = Limits {
    changes: 4_096,
    first: 24,
    second: 80,
    pairs: 400_000,
    passes: 6,
};

/// What it is worth where that finds nothing.
const WHOLE_AGAIN: Limits = Limits {
    changes: 16_384,
    first: 24,
    second: 80,
    pairs: 3_200_000,
    passes: 6,
};

/// What a part of it is worth.
const PART: Limits = Limits {
    changes: 64,
    first: 8,
    second: 16,
    pairs: 2_000,
    passes: 1,
};

/// Whether the box is the whole box of the problem.
fn is_whole(problem: &Problem, region: &Region) -> bool {
    let highs = region.high.as_slice().iter().zip(problem.uppers());
    region.low.as_slice().iter().all(|low| *low == 0)
        && highs.map(|(high, upper)| *high == *upper).all(|same| same)
}

/// Looks hard for a point of the whole box.
fn search_whole(alloc: Global, near: &Near, best: &mut Best) -> Result<Draft, AllocError> {
    let mild = Descent {
        width: 40,
        steps: 60,
        is_strict: false,
    };
    let strict = Descent {
        width: 40,
        steps: 60,
        is_strict: true,
    };
    descend(alloc, near, mild, best)?;
    let draft = descend(alloc, near, strict, best)?;
    join_changes(alloc, near, WHOLE, best)?;
    if best.cost.is_none() {
        join_changes(alloc, near, WHOLE_AGAIN, best)?;
    }
    Ok(draft)
}

/// Looks for a point of a part of the box.
fn search_part(alloc: Global, near: &Near, best: &mut Best) -> Result<Draft, AllocError> {
    join_changes(alloc, near, PART, best)?;
    let descent = Descent {
        width: 24,
        steps: if best.cost.is_none() { 16 } else { 0 },
        is_strict: false,
    };
    descend(alloc, near, descent, best)
}

/// Looks for a point near the resting one. What it answers is feasible if it has a cost, and otherwise where a descent
/// ends.
fn search(alloc: Global, near: &Near, whole: bool) -> Result<Best, AllocError> {
    let mut best = Best::new(alloc);
    best.consider(&Draft::resting(alloc, near)?)?;
    let draft = if whole {
        search_whole(alloc, near, &mut best)?
    } else {
        search_part(alloc, near, &mut best)?
    };
    best.settle(&draft)?;
    Ok(best)
}

/// The counts of the resting point.
fn resting_counts(
    alloc: Global,
    region: &Region,
    weights: &Weights,
) -> Result<Vec<u64>, AllocError> {
    let mut counts = Vec::with_capacity(alloc, weights.each.len())?;
    for (variable, weight) in weights.each.iter().enumerate() {
        counts.push(resting(region, *weight, variable).max(0).unsigned_abs())?;
    }
    Ok(counts)
}

/// Writes the counts of the candidates over those of the resting point.
fn overwrite(counts: &mut Vec<u64>, near: &Near, found: &[i64]) {
    for (candidate, count) in near.candidates.iter().zip(found) {
        if candidate.variable < counts.len() {
            counts[candidate.variable] = (*count).max(0).unsigned_abs();
        }
    }
}

/// The point of the box that is nearest to these counts.
fn point_of(
    alloc: Global,
    problem: &Problem,
    region: &Region,
    wanted: &[u64],
) -> Result<Point, AllocError>
    requires { IsRegion problem.now region.now }
    ensures { IfOk result (λ point. IsPointOf problem.now region.now point) }
{
    let low = region.low.as_slice();
    let high = region.high.as_slice();
    let mut counts = Vec::with_capacity(alloc, problem.variables())?;
    for variable in 0..problem.variables() {
        let count = wanted.get(variable).copied().unwrap_or(0);
        counts.push(count.max(low[variable]).min(high[variable]))?;
    }
    Ok(Point::new(Items::from_vec(counts)))
}

/// Points of the box near the point that the multipliers prefer: the best feasible one that was found, or one that
/// comes close to feasible. None where the multipliers don't weigh the cost. It takes a few passes over the rows.
pub fn round_points(
    alloc: Global,
    problem: &Problem,
    region: &Region,
    mult: &Mult,
) -> Result<Vec<Point>, AllocError>
    requires region { IsRegion problem.now region.now }
    requires mult { IsMult problem.now mult.now }
    ensures few { IfOk result (λ points. length points.items ≤ MOST_POINTS) }
    ensures inside { IfOk result (λ points.
        All (λ (x : List ℕ). IsPointOf problem.now region.now x) points.items) }
{
    let mut points = Vec::new(alloc);
    if mult.d == 0 {
        return Ok(points);
    }
    let weights = Weights::new(alloc, problem, mult)?;
    let whole = is_whole(problem, region);
    let limits = if whole { WHOLE } else { PART };
    let want = limits.first.saturating_add(limits.second);
    let near = Near::new(alloc, problem, region, mult, &weights, want)?;
    let best = search(alloc, &near, whole)?;
    let mut counts = resting_counts(alloc, region, &weights)?;
    overwrite(&mut counts, &near, best.counts.as_slice());
    points.push(point_of(alloc, problem, region, counts.as_slice())?)?;
    Ok(points)
}

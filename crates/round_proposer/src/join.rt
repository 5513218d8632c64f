//! Points that are two small changes away from another: every pair of a change of the first candidates and one of the
//! next ones is looked at that may fit a row. See Horowitz and Sahni, Computing partitions with applications to the
//! knapsack problem, Journal of the ACM 21 (1974).

use crate::best::{Best, Draft};
use crate::changes::{Change, Changes, Step};
use crate::fixed::MOST;
use crate::near::Near;
use crate::pivot::{Pivot, pivot_of, room_of};
use std::alloc::{AllocError, Global};

/// How much a join looks at.
#[derive(Clone, Copy, Debug)]
pub(crate) struct Limits {
    /// How many changes the first list has at most.
    pub changes: usize,
    /// How many candidates it is made of at most.
    pub first: usize,
    /// How many candidates the second list is made of.
    pub second: usize,
    /// How many pairs are looked at.
    pub pairs: usize,
    /// How often it begins again from the best point.
    pub passes: usize,
}

/// How many single steps a change of the second list is made of at most.
const MOST_LEVELS: usize = 6;

/// One join: where it begins, and what it may lose.
#[derive(Debug, Drop)]
struct Join {
    base: Draft,
    /// What the base loses itself.
    loss: i64,
    pivot: Pivot,
    /// Whether it begins at the resting point, where no change gains anything.
    is_first: bool,
}

/// Whether a candidate is like the one before it, and both are 0 or 1: then it changes only with that one.
fn is_like_last(near: &Near, base: &Draft, place: usize) -> bool {
    let Some(before) = place.checked_sub(1) else {
        return false;
    };
    let (Some(one), Some(other)) = (near.candidates.get(before), near.candidates.get(place)) else {
        return false;
    };
    let counts = base.counts.as_slice();
    one.cost == other.cost
        && one.low == other.low
        && one.high == other.high
        && one.high.saturating_sub(one.low) == 1
        && counts.get(before) == counts.get(place)
        && near.entries_of(before) == near.entries_of(place)
}

impl Join {
    /// The greatest loss that a change may have.
    fn limit(&self, near: &Near, best: &Best) -> i64 {
        if self.is_first {
            near.gap(best.cost)
        } else {
            i64::MAX
        }
    }

    /// How far a count may change in one step of the first list.
    fn reach(&self) -> u8 {
        if self.is_first { 4 } else { 2 }
    }

    /// How many other counts a candidate may have within reach.
    fn choices(&self, near: &Near, place: usize) -> usize {
        let Some(candidate) = near.candidates.get(place) else {
            return 0;
        };
        let count = self.base.counts.get(place).copied().unwrap_or(0);
        let reach = i64::from(self.reach());
        let up = candidate.high.saturating_sub(count).max(0).min(reach);
        let down = count.saturating_sub(candidate.low).max(0).min(reach);
        up.saturating_add(down).unsigned_abs() as usize
    }

    /// Adds the changes of one more candidate after each change of the list.
    fn extend(
        &self,
        near: &Near,
        changes: &mut Changes,
        place: usize,
        limit: i64,
        only_after: Option<usize>,
    ) -> Result<(), AllocError> {
        for before in 0..changes.list.len() {
            let last = changes.list.get(before).map(|change| change.step.place);
            if only_after.is_some() && last != only_after {
                continue;
            }
            for size in 1..self.reach().saturating_add(1) {
                let by = i64::from(size);
                let less = by.saturating_neg();
                changes.add(
                    near,
                    &self.base,
                    Step {
                        before,
                        place,
                        by: less,
                    },
                    limit,
                )?;
                changes.add(near, &self.base, Step { before, place, by }, limit)?;
            }
        }
        Ok(())
    }

    /// Every change of the first candidates, as many of these as fit the limit. Answers how many they are.
    fn first_list(
        &self,
        near: &Near,
        changes: &mut Changes,
        limits: Limits,
        limit: i64,
    ) -> Result<usize, AllocError> {
        for place in 0..limits.first.min(near.candidates.len()) {
            let is_like = is_like_last(near, &self.base, place);
            let factor = if is_like {
                1
            } else {
                self.choices(near, place).saturating_add(1)
            };
            if changes.list.len().saturating_mul(factor) > limits.changes {
                return Ok(place);
            }
            let only_after = if is_like { place.checked_sub(1) } else { None };
            self.extend(near, changes, place, limit, only_after)?;
        }
        Ok(limits.first.min(near.candidates.len()))
    }

    /// Adds one single step of a later candidate after a change of the last level.
    fn add_level(
        &self,
        near: &Near,
        changes: &mut Changes,
        before: usize,
        from: usize,
        to: usize,
        limit: i64,
    ) -> Result<(), AllocError> {
        let after = match changes.list.get(before) {
            Some(change) if before > 0 => change.step.place.saturating_add(1),
            _ => from,
        };
        for place in after..to {
            changes.add(
                near,
                &self.base,
                Step {
                    before,
                    place,
                    by: -1,
                },
                limit,
            )?;
            changes.add(
                near,
                &self.base,
                Step {
                    before,
                    place,
                    by: 1,
                },
                limit,
            )?;
        }
        Ok(())
    }

    /// Changes of the next candidates by single steps: one, two, and more as far as a whole level fits the limit.
    fn second_list(
        &self,
        near: &Near,
        changes: &mut Changes,
        limits: Limits,
        from: usize,
        limit: i64,
    ) -> Result<(), AllocError> {
        let to = from
            .saturating_add(limits.second)
            .min(near.candidates.len());
        let mut start = 0;
        for level in 1..MOST_LEVELS + 1 {
            let end = changes.list.len();
            let width = to.saturating_sub(from);
            let guess = end.saturating_sub(start).saturating_mul(width) / level;
            if end == start || (level > 2 && end.saturating_add(guess) > limits.changes) {
                return Ok(());
            }
            for before in start..end {
                self.add_level(near, changes, before, from, to, limit)?;
            }
            start = end;
        }
        Ok(())
    }

    /// How far below the pivot row's side a pair may leave it, after the first change's loss.
    fn room(&self, near: &Near, best: &Best, left: i64) -> i128 {
        let width = self.pivot.width.map_or(2 * MOST, i128::from);
        let Some(row) = near.rows.get(self.pivot.row) else {
            return width;
        };
        if !self.is_first || best.cost.is_none() {
            return width;
        }
        room_of(row, near, left, true).min(width)
    }

    /// Whether each row keeps its side after both changes.
    fn fits(&self, first: &[i64], second: &[i64]) -> bool {
        for ((slack, one), other) in self.base.slacks.iter().zip(first).zip(second) {
            if slack.wrapping_sub(*one).wrapping_sub(*other) < 0 {
                return false;
            }
        }
        true
    }
}

/// The two lists of changes of a join.
#[derive(Debug, Drop)]
struct Lists {
    first: Changes,
    second: Changes,
    /// The second list by what its changes add to the pivot row.
    by_key: Vec<(i64, usize)>,
}

/// Keeps the point of a pair.
fn keep_pair(
    alloc: Global,
    join: &Join,
    lists: &Lists,
    pair: (usize, usize),
    cost: i64,
    best: &mut Best,
) -> Result<(), AllocError> {
    let mut counts = Vec::from_slice(alloc, join.base.counts.as_slice())?;
    lists.first.apply(pair.0, &mut counts);
    lists.second.apply(pair.1, &mut counts);
    best.keep(counts.as_slice(), cost)
}

/// What a pair costs.
fn cost_of(join: &Join, one: &Change, other: &Change) -> i64 {
    join.base
        .cost
        .wrapping_add(one.cost)
        .wrapping_add(other.cost)
}

/// Looks at the pairs of one change of the first list, those that use up most of the pivot row first. Answers how many
/// it looked at.
fn match_one(
    alloc: Global,
    near: &Near,
    join: &Join,
    lists: &Lists,
    first: usize,
    most: usize,
    best: &mut Best,
) -> Result<usize, AllocError> {
    let Some(one) = lists.first.list.get(first).copied() else {
        return Ok(0);
    };
    let slack = join.base.slacks.get(join.pivot.row).copied().unwrap_or(0);
    let top = slack.wrapping_sub(one.key);
    let left = near
        .gap(best.cost)
        .saturating_sub(join.loss)
        .saturating_sub(one.loss);
    let bottom = i128::from(top).saturating_sub(join.room(near, best, left.max(0)));
    let end = lists.by_key.partition_point(|pair| pair.0 <= top);
    let mut seen: usize = 0;
    for (key, second) in lists.by_key.iter().take(end).rev().take(most) {
        if i128::from(*key) < bottom {
            return Ok(seen);
        }
        seen = seen.saturating_add(1);
        let Some(other) = lists.second.list.get(*second).copied() else {
            return Ok(seen);
        };
        let cost = cost_of(join, &one, &other);
        let (first_uses, second_uses) = (lists.first.uses_of(first), lists.second.uses_of(*second));
        if best.is_below(cost) && join.fits(first_uses, second_uses) {
            keep_pair(alloc, join, lists, (first, *second), cost, best)?;
        }
    }
    Ok(seen)
}

/// Looks at pairs of both lists, those of the smallest losses first.
fn match_all(
    alloc: Global,
    near: &Near,
    join: &Join,
    lists: &Lists,
    limits: Limits,
    best: &mut Best,
) -> Result<(), AllocError> {
    let mut left = limits.pairs;
    let share = (limits.pairs / 64).max(16);
    for (loss, first) in lists.first.by_loss(alloc)? {
        let gap = near.gap(best.cost);
        if left == 0 || gap < 0 || (join.is_first && loss > gap.saturating_sub(join.loss)) {
            return Ok(());
        }
        let most = share.min(left);
        let seen = match_one(alloc, near, join, lists, first, most, best)?;
        left = left.saturating_sub(seen).saturating_sub(1);
    }
    Ok(())
}

/// One join from a point.
fn join_from(
    alloc: Global,
    near: &Near,
    base: Draft,
    is_first: bool,
    limits: Limits,
    best: &mut Best,
) -> Result<(), AllocError> {
    let gap = near.gap(best.cost);
    let Some(pivot) = pivot_of(near, gap, best.cost.is_some()) else {
        return Ok(());
    };
    let join = Join {
        loss: base.loss(near),
        base,
        pivot,
        is_first,
    };
    let limit = join.limit(near, best);
    let mut first = Changes::new(alloc, near, pivot.row)?;
    let mut second = Changes::new(alloc, near, pivot.row)?;
    let from = join.first_list(near, &mut first, limits, limit)?;
    join.second_list(near, &mut second, limits, from, limit)?;
    let lists = Lists {
        by_key: second.by_key(alloc)?,
        first,
        second,
    };
    match_all(alloc, near, &join, &lists, limits, best)
}

/// Joins small changes of the resting point, and then of the best point as long as it gets better.
pub(crate) fn join_changes(
    alloc: Global,
    near: &Near,
    limits: Limits,
    best: &mut Best,
) -> Result<(), AllocError> {
    join_from(
        alloc,
        near,
        Draft::resting(alloc, near)?,
        true,
        limits,
        best,
    )?;
    for _ in 1..limits.passes {
        let before = best.cost;
        if before.is_none() || near.gap(before) < 0 {
            return Ok(());
        }
        let base = Draft::of(alloc, near, best.counts.as_slice())?;
        join_from(alloc, near, base, false, limits, best)?;
        if best.cost == before {
            return Ok(());
        }
    }
    Ok(())
}

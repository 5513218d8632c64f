//! A descent by single steps and swaps from the resting point, where what rows lack is paid for.

use crate::best::{Best, Draft};
use crate::fixed::{bits, size_of};
use crate::near::{Candidate, Near, Row, number_at};
use std::alloc::{AllocError, Global};

/// How a descent goes.
#[derive(Clone, Copy, Debug)]
pub(crate) struct Descent {
    /// How many candidates take part.
    pub width: usize,
    pub steps: usize,
    /// Whether what rows lack is dear from the start.
    pub is_strict: bool,
}

/// A change of one candidate, and of another by one less.
#[derive(Clone, Copy, Debug)]
struct Move {
    place: usize,
    by: i64,
    less: Option<usize>,
    gain: i128,
}

/// How many bits the greatest cost of a candidate takes.
fn cost_bits(near: &Near) -> u32 {
    let mut most = 0;
    for candidate in near.candidates.iter() {
        most = bits(i128::from(candidate.cost)).max(most);
    }
    most
}

/// What one unit that a row lacks costs.
fn penalty_of(near: &Near, row: &Row, cost_bits: u32, is_strict: bool) -> i128 {
    let whole = i128::from(near.d)
        .wrapping_shl(cost_bits.min(64))
        .wrapping_shr(row.bits.min(127));
    let multiplier = i128::from(row.multiplier);
    if is_strict {
        return multiplier
            .saturating_mul(16)
            .saturating_add(whole)
            .saturating_add(1);
    }
    multiplier
        .saturating_mul(2)
        .saturating_add(whole / 64)
        .saturating_add(1)
}

/// What one unit that each row lacks costs.
fn penalties(alloc: Global, near: &Near, is_strict: bool) -> Result<Vec<i128>, AllocError> {
    let cost_bits = cost_bits(near);
    let mut penalties = Vec::with_capacity(alloc, near.rows.len())?;
    for row in near.rows.iter() {
        penalties.push(penalty_of(near, row, cost_bits, is_strict))?;
    }
    Ok(penalties)
}

/// What a row lacks.
fn lack_of(slack: i64) -> i64 {
    slack.min(0).saturating_neg()
}

/// What a row adds to the gain of a move after which it has another slack.
fn relief(penalty: i128, before: i64, after: i64) -> i128 {
    let less = lack_of(before).saturating_sub(lack_of(after));
    if less == 0 {
        return 0;
    }
    penalty.saturating_mul(i128::from(less))
}

/// A descent on the way.
#[derive(Debug, Drop)]
struct Walk {
    draft: Draft,
    penalties: Vec<i128>,
    width: usize,
}

impl Walk {
    /// What a move gains.
    fn gain_of(&self, near: &Near, place: usize, by: i64, less: Option<usize>) -> i128 {
        let cost = near
            .candidates
            .get(place)
            .map_or(0, |candidate| candidate.cost);
        let other = less
            .and_then(|less| near.candidates.get(less))
            .map_or(0, |one| one.cost);
        let change = cost.saturating_mul(by).saturating_sub(other);
        let mut gain = i128::from(near.d).wrapping_mul(i128::from(change));
        let numbers = near.entries_of(place);
        let others = less.map_or(&[] as &[i64], |less| near.entries_of(less));
        let rows = self.draft.slacks.iter().zip(&self.penalties).zip(numbers);
        for (row, ((slack, penalty), number)) in rows.enumerate() {
            let used = number.wrapping_mul(by).wrapping_sub(number_at(others, row));
            gain = gain.saturating_add(relief(*penalty, *slack, slack.wrapping_sub(used)));
        }
        gain
    }

    /// The better of a move and one that changes a candidate by so many units, as far as its ends allow.
    fn better(
        &self,
        near: &Near,
        best: Option<Move>,
        place: usize,
        by: i64,
        less: Option<usize>,
    ) -> Option<Move> {
        if by == 0 {
            return best;
        }
        let gain = self.gain_of(near, place, by, less);
        if gain <= best.map_or(0, |best| best.gain) {
            return best;
        }
        Some(Move {
            place,
            by,
            less,
            gain,
        })
    }

    /// The best move of a candidate alone: by one unit, or until a row fits exactly.
    fn best_alone(&self, near: &Near, best: Option<Move>, place: usize) -> Option<Move> {
        let candidate = near.candidates.get(place)?;
        let (down, up) = self.reach(candidate, place);
        let mut best = self.better(near, best, place, up.min(1), None);
        best = self.better(near, best, place, down.max(-1), None);
        if up.saturating_sub(down) <= 1 {
            return best;
        }
        for (slack, number) in self.draft.slacks.iter().zip(near.entries_of(place)) {
            let by = fit_of(*slack, *number).max(down).min(up);
            best = self.better(near, best, place, by, None);
        }
        best
    }

    /// How far a candidate may go down and up.
    fn reach(&self, candidate: &Candidate, place: usize) -> (i64, i64) {
        let count = self
            .draft
            .counts
            .get(place)
            .copied()
            .unwrap_or(candidate.low);
        (
            candidate.low.saturating_sub(count).min(0),
            candidate.high.saturating_sub(count).max(0),
        )
    }

    /// The best single move.
    fn best_single(&self, near: &Near) -> Option<Move> {
        let mut best = None;
        for place in 0..self.width {
            best = self.best_alone(near, best, place).or(best);
        }
        best
    }

    /// The best swap of one unit of a candidate for one of another.
    fn best_swap_of(&self, near: &Near, best: Option<Move>, place: usize) -> Option<Move> {
        let mut best = best;
        for (less, candidate) in near.candidates.iter().take(self.width).enumerate() {
            if less != place && self.reach(candidate, less).0 < 0 {
                best = self.better(near, best, place, 1, Some(less));
            }
        }
        best
    }

    /// The best swap.
    fn best_swap(&self, near: &Near) -> Option<Move> {
        let mut best = None;
        for (place, candidate) in near.candidates.iter().take(self.width).enumerate() {
            if self.reach(candidate, place).1 > 0 {
                best = self.best_swap_of(near, best, place);
            }
        }
        best
    }

    /// Makes a move.
    fn make(&mut self, near: &Near, step: Move) {
        self.draft.change(near, step.place, step.by);
        if let Some(less) = step.less {
            self.draft.change(near, less, -1);
        }
    }
}

/// By how many units a candidate changes until a row has nothing left and lacks nothing.
fn fit_of(slack: i64, number: i64) -> i64 {
    let Some(whole) = slack.checked_div(number) else {
        return 0;
    };
    if slack < 0 && whole.wrapping_mul(number) != slack {
        return if number > 0 {
            whole.saturating_sub(1)
        } else {
            whole.saturating_add(1)
        };
    }
    whole
}

/// Descends, and keeps the best feasible point on the way. Answers where it ends.
pub(crate) fn descend(
    alloc: Global,
    near: &Near,
    descent: Descent,
    best: &mut Best,
) -> Result<Draft, AllocError> {
    let mut walk = Walk {
        draft: Draft::resting(alloc, near)?,
        penalties: penalties(alloc, near, descent.is_strict)?,
        width: descent.width.min(near.candidates.len()),
    };
    for _ in 0..descent.steps {
        let single = walk.best_single(near);
        let Some(step) = (if single.is_some() {
            single
        } else {
            walk.best_swap(near)
        }) else {
            break;
        };
        walk.make(near, step);
        best.consider(&walk.draft)?;
    }
    let Walk { draft, .. } = walk;
    Ok(draft)
}

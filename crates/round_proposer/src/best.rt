//! A point in the making, and the best that was found.

use crate::fixed::{held, times};
use crate::near::{Near, number_at};
use std::alloc::{AllocError, Global};

/// A point near the resting one: what each candidate counts, what the rows have left, and its cost.
#[derive(Debug, Drop)]
pub(crate) struct Draft {
    pub counts: Vec<i64>,
    pub slacks: Vec<i64>,
    pub cost: i64,
}

/// The best feasible point that was found.
#[derive(Debug, Drop)]
pub(crate) struct Best {
    pub cost: Option<i64>,
    pub counts: Vec<i64>,
}

impl Draft {
    /// The resting point.
    pub(crate) fn resting(alloc: Global, near: &Near) -> Result<Draft, AllocError> {
        Ok(Draft {
            counts: near.rests(alloc)?,
            slacks: near.slacks(alloc)?,
            cost: near.cost,
        })
    }

    /// The point with these counts.
    pub(crate) fn of(alloc: Global, near: &Near, counts: &[i64]) -> Result<Draft, AllocError> {
        let mut draft = Draft::resting(alloc, near)?;
        for (place, count) in counts.iter().enumerate() {
            let by = count.saturating_sub(number_at(draft.counts.as_slice(), place));
            if by != 0 {
                draft.change(near, place, by);
            }
        }
        Ok(draft)
    }

    /// Changes a candidate by so many units.
    pub(crate) fn change(&mut self, near: &Near, place: usize, by: i64) {
        if place < self.counts.len() {
            self.counts[place] = self.counts[place].saturating_add(by);
        }
        for (slack, number) in self.slacks.iter_mut().zip(near.entries_of(place)) {
            *slack = slack.wrapping_sub(number.wrapping_mul(by));
        }
        let cost = near
            .candidates
            .get(place)
            .map_or(0, |candidate| candidate.cost);
        self.cost = self.cost.wrapping_add(cost.wrapping_mul(by));
    }

    /// Whether each row keeps its side.
    pub(crate) fn is_feasible(&self) -> bool {
        self.slacks.iter().all(|slack| *slack >= 0)
    }

    /// What the candidates' counts take from the bound.
    pub(crate) fn loss(&self, near: &Near) -> i64 {
        let mut total: i64 = 0;
        for (count, candidate) in self.counts.iter().zip(&near.candidates) {
            let away = count.saturating_sub(candidate.rest).saturating_abs();
            total = total.saturating_add(held(times(candidate.loss, away)));
        }
        total
    }
}

impl Best {
    /// None yet.
    pub(crate) fn new(alloc: Global) -> Best {
        Best {
            cost: None,
            counts: Vec::new(alloc),
        }
    }

    /// Whether a point of this cost would be better.
    pub(crate) fn is_below(&self, cost: i64) -> bool {
        self.cost.is_none_or(|best| cost > best)
    }

    /// Keeps a point.
    pub(crate) fn keep(&mut self, counts: &[i64], cost: i64) -> Result<(), AllocError> {
        self.counts.clear();
        self.counts.extend_from_slice(counts)?;
        self.cost = Some(cost);
        Ok(())
    }

    /// Keeps a draft if it is feasible and better.
    pub(crate) fn consider(&mut self, draft: &Draft) -> Result<(), AllocError> {
        if self.is_below(draft.cost) && draft.is_feasible() {
            return self.keep(draft.counts.as_slice(), draft.cost);
        }
        Ok(())
    }

    /// Takes the counts of a draft if no feasible point was found.
    pub(crate) fn settle(&mut self, draft: &Draft) -> Result<(), AllocError> {
        if self.cost.is_none() {
            self.counts.clear();
            self.counts.extend_from_slice(draft.counts.as_slice())?;
        }
        Ok(())
    }
}

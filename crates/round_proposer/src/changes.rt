//! Lists of small changes to a point, each one more step after another of the list.

use crate::best::Draft;
use crate::fixed::{held, times};
use crate::near::{Candidate, Near, number_at};
use std::alloc::{AllocError, Global};

/// More steps than a change is made of.
const MOST_STEPS: usize = 64;

/// A step after another change: a candidate counts so many units more.
#[derive(Clone, Copy, Debug)]
pub(crate) struct Step {
    pub before: usize,
    pub place: usize,
    pub by: i64,
}

/// A change, and what it does in all.
#[derive(Clone, Copy, Debug)]
pub(crate) struct Change {
    pub step: Step,
    /// What it adds to the row by which changes are joined.
    pub key: i64,
    pub loss: i64,
    pub cost: i64,
}

/// Changes of a point. The first one changes nothing.
#[derive(Debug, Drop)]
pub(crate) struct Changes {
    pub list: Vec<Change>,
    /// What each adds to each row.
    uses: Vec<i64>,
    height: usize,
    /// The row by which they are joined.
    row: usize,
}

/// What a step of a candidate takes from the bound.
fn loss_of(candidate: &Candidate, count: i64, by: i64) -> i64 {
    let before = count.saturating_sub(candidate.rest).saturating_abs();
    let after = count
        .saturating_add(by)
        .saturating_sub(candidate.rest)
        .saturating_abs();
    held(times(candidate.loss, after.saturating_sub(before)))
}

impl Changes {
    /// The change of nothing.
    pub(crate) fn new(alloc: Global, near: &Near, row: usize) -> Result<Changes, AllocError> {
        let step = Step {
            before: 0,
            place: usize::MAX,
            by: 0,
        };
        let nothing = Change {
            step,
            key: 0,
            loss: 0,
            cost: 0,
        };
        Ok(Changes {
            list: vec![in alloc; nothing; 1]?,
            uses: vec![in alloc; 0i64; near.rows.len()]?,
            height: near.rows.len(),
            row,
        })
    }

    /// What a change adds to each row, and nothing past the last.
    pub(crate) fn uses_of(&self, place: usize) -> &[i64] {
        let start = place.saturating_mul(self.height);
        let end = start.saturating_add(self.height);
        if end > self.uses.len() {
            return &[];
        }
        &self.uses[start..end]
    }

    /// Adds what one more step after a change adds to each row.
    fn add_uses(&mut self, near: &Near, step: Step) -> Result<(), AllocError> {
        let start = step.before.saturating_mul(self.height);
        for (row, number) in near.entries_of(step.place).iter().enumerate() {
            let before = number_at(self.uses.as_slice(), start.saturating_add(row));
            self.uses
                .push(before.wrapping_add(number.wrapping_mul(step.by)))?;
        }
        Ok(())
    }

    /// Adds a step after a change, unless a candidate then leaves its ends or the loss is above the limit.
    pub(crate) fn add(
        &mut self,
        near: &Near,
        base: &Draft,
        step: Step,
        limit: i64,
    ) -> Result<(), AllocError> {
        let Some(candidate) = near.candidates.get(step.place) else {
            return Ok(());
        };
        let Some(before) = self.list.get(step.before).copied() else {
            return Ok(());
        };
        let count = number_at(base.counts.as_slice(), step.place);
        let after = count.saturating_add(step.by);
        let loss = before
            .loss
            .saturating_add(loss_of(candidate, count, step.by));
        if after < candidate.low || after > candidate.high || loss > limit {
            return Ok(());
        }
        let number = number_at(near.entries_of(step.place), self.row);
        self.list.push(Change {
            step,
            key: before.key.wrapping_add(number.wrapping_mul(step.by)),
            loss,
            cost: before
                .cost
                .wrapping_add(candidate.cost.wrapping_mul(step.by)),
        })?;
        self.add_uses(near, step)
    }

    /// Makes a change to counts.
    pub(crate) fn apply(&self, place: usize, counts: &mut Vec<i64>) {
        let mut place = place;
        for _ in 0..MOST_STEPS {
            let Some(change) = self.list.get(place).copied() else {
                return;
            };
            if place == 0 {
                return;
            }
            if change.step.place < counts.len() {
                counts[change.step.place] = counts[change.step.place].saturating_add(
                    change.step.by,
                );
            }
            place = change.step.before;
        }
    }

    /// The numbers of the changes, those of the smallest losses first.
    pub(crate) fn by_loss(&self, alloc: Global) -> Result<Vec<(i64, usize)>, AllocError> {
        let mut order = Vec::with_capacity(alloc, self.list.len())?;
        for (place, change) in self.list.iter().enumerate() {
            order.push((change.loss, place))?;
        }
        order.sort_unstable();
        Ok(order)
    }

    /// The numbers of the changes, those of the smallest keys first.
    pub(crate) fn by_key(&self, alloc: Global) -> Result<Vec<(i64, usize)>, AllocError> {
        let mut order = Vec::with_capacity(alloc, self.list.len())?;
        for (place, change) in self.list.iter().enumerate() {
            order.push((change.key, place))?;
        }
        order.sort_unstable();
        Ok(order)
    }
}

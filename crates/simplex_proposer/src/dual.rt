//! The dual simplex method with bounded columns and long steps, over the rows alone.

use crate::basis::{Basis, Member};
use crate::breakpoints::{
    Breakpoint, SLOPE_SHIFT, VALUE_FRACTION, find_breakpoints, turning_point,
};
use crate::columns::{Column, FRACTION, Program};
use crate::fixed::{bits, greatest_size, held, shifted, size_of, times};
use crate::turns::Turns;
use std::alloc::{AllocError, Global};

/// After how many steps the inverse is computed again.
const STEPS_BETWEEN: usize = 24;

/// How many steps may do nothing.
const MOST_IDLE: usize = 20;

/// How a run ends.
#[derive(Clone, Copy, Debug, PartialEq, Eq)]
pub(crate) enum End {
    /// At a basis whose values are within their ends.
    Solved,
    /// At a direction along which the bound falls without end, so that no point keeps the rows.
    Ray,
    /// Before that.
    Stopped,
}

/// A member of the basis that is outside its ends.
#[derive(Clone, Copy, Debug)]
struct Leaving {
    place: usize,
    is_above: bool,
    /// By how much, in fixed point.
    excess: i128,
}

/// A basis, what follows from it, and room for the next step.
#[derive(Debug, Drop)]
pub(crate) struct Dual {
    pub columns: Vec<Column>,
    pub basis: Basis,
    /// What one unit of each row is worth, over the greatest cost and coefficient.
    pub prices: Vec<i64>,
    /// The same, in units of the program's scale.
    pub weighed: Vec<i128>,
    /// The value of each member.
    pub values: Vec<i128>,
    /// The direction of the last step, over the greatest coefficients.
    pub ray: Vec<i64>,
    costs: Vec<i64>,
    activity: Vec<i64>,
    direction: Vec<i128>,
    points: Vec<Breakpoint>,
    shift: i32,
}

/// Adds a factor times each number to the total of its column.
fn add_times(columns: &mut [Column], factor: i128, numbers: &[i64]) {
    for (column, number) in columns.iter_mut().zip(numbers) {
        column.total = column
            .total
            .wrapping_add(factor.wrapping_mul(i128::from(*number)));
    }
}

/// How far totals have to shrink so that they take at most 61 bits: each factor goes with a row's greatest number.
fn spare_bits(first: i128, factors: &[i128], sizes: &[i16]) -> i32 {
    let mut most = size_of(first);
    for (factor, size) in factors.iter().zip(sizes) {
        most = most.saturating_add(shifted(size_of(*factor), i32::from(*size)));
    }
    (i32::from(bits(most)) - 61).max(0)
}

/// What the columns outside the basis add to a row.
fn activity_of(columns: &[Column], numbers: &[i64]) -> i128 {
    let mut total: i128 = 0;
    for (column, number) in columns.iter().zip(numbers) {
        total = total.wrapping_add(times(column.rest(), *number));
    }
    total
}

/// The value of a member: minus its row of the inverse times the activities, over the greatest coefficients.
fn value_of(inverse: &[i64], activity: &[i64], scale: i16) -> i128 {
    let mut total: i128 = 0;
    for (number, sum) in inverse.iter().zip(activity) {
        total = total.wrapping_sub(times(*number, *sum) >> 8);
    }
    shifted(total >> (FRACTION - 8), i32::from(scale))
}

impl Dual {
    /// The columns, and the basis of the sums of the rows.
    pub(crate) fn new(
        alloc: Global,
        program: &Program,
        columns: Vec<Column>,
    ) -> Result<Dual, AllocError> {
        let height = program.height();
        Ok(Dual {
            points: Vec::with_capacity(alloc, columns.len())?,
            columns,
            basis: Basis::new(alloc, height)?,
            prices: vec![in alloc; 0i64; height]?,
            weighed: vec![in alloc; 0i128; height]?,
            values: vec![in alloc; 0i128; height]?,
            ray: vec![in alloc; 0i64; height]?,
            costs: vec![in alloc; 0i64; height]?,
            activity: vec![in alloc; 0i64; height]?,
            direction: vec![in alloc; 0i128; height]?,
            shift: 0,
        })
    }

    /// The same once more.
    pub(crate) fn copy(&self, alloc: Global) -> Result<Dual, AllocError> {
        Ok(Dual {
            columns: Vec::from_slice(alloc, self.columns.as_slice())?,
            basis: self.basis.copy(alloc)?,
            prices: Vec::from_slice(alloc, self.prices.as_slice())?,
            weighed: Vec::from_slice(alloc, self.weighed.as_slice())?,
            values: Vec::from_slice(alloc, self.values.as_slice())?,
            ray: Vec::from_slice(alloc, self.ray.as_slice())?,
            costs: Vec::from_slice(alloc, self.costs.as_slice())?,
            activity: Vec::from_slice(alloc, self.activity.as_slice())?,
            direction: Vec::from_slice(alloc, self.direction.as_slice())?,
            points: Vec::with_capacity(alloc, self.columns.len())?,
            shift: self.shift,
        })
    }

    /// The column, or none past the last.
    pub(crate) fn column(&self, column: usize) -> Option<&Column> {
        self.columns.get(column)
    }

    /// Marks the members as such.
    fn mark_members(&mut self) {
        for column in self.columns.iter_mut() {
            column.is_basic = false;
        }
        for member in self.basis.members.iter() {
            if member.column < self.columns.len() {
                self.columns[member.column].is_basic = true;
            }
        }
    }

    /// Begins with a basis of these columns, as far as they are independent.
    pub(crate) fn begin(&mut self, program: &Program, preferred: &[usize]) {
        self.basis.begin(program, preferred);
        self.mark_members();
    }

    /// Computes the inverse again.
    fn refresh(&mut self, alloc: Global, program: &Program) -> Result<(), AllocError> {
        let mut members = Vec::with_capacity(alloc, self.basis.members.len())?;
        for member in self.basis.members.iter() {
            members.push(member.column)?;
        }
        self.begin(program, members.as_slice());
        Ok(())
    }

    /// Sets the costs of the members.
    fn set_costs(&mut self, program: &Program) {
        for (cost, member) in self.costs.iter_mut().zip(&self.basis.members) {
            let full = self
                .columns
                .get(member.column)
                .map_or(0, |column| column.cost);
            *cost = program.normal_cost(full, member.scale);
        }
    }

    /// Sets the prices of the rows.
    fn set_prices(&mut self, program: &Program) {
        for (row, price) in self.prices.iter_mut().enumerate() {
            *price = self.basis.price(self.costs.as_slice(), row);
        }
        let sizes = program.scale.rows.as_slice();
        for ((weighed, price), size) in self.weighed.iter_mut().zip(&self.prices).zip(sizes) {
            let by = program
                .scale
                .window
                .saturating_sub(i32::from(*size) + FRACTION);
            *weighed = shifted(i128::from(*price), by);
        }
    }

    /// Sets the reduced cost of each column, and at which end it is.
    fn set_reduced(&mut self, program: &Program) {
        let by = program.scale.cost_shift();
        for column in self.columns.iter_mut() {
            column.total = shifted(i128::from(column.cost), by);
        }
        for (row, factor) in self.weighed.iter().enumerate() {
            let taken = factor.wrapping_neg();
            add_times(self.columns.as_mut_slice(), taken, program.entries.row(row));
        }
        let unit = shifted(1, program.scale.window);
        let sizes = program.scale.rows.as_slice();
        self.shift = spare_bits(unit, self.weighed.as_slice(), sizes);
        for column in self.columns.iter_mut() {
            column.settle(self.shift);
        }
    }

    /// Sets the sum of each row over the columns outside the basis.
    fn set_activity(&mut self, program: &Program) {
        let sizes = program.scale.rows.as_slice();
        let others = program.others.as_slice();
        let sums = self.activity.iter_mut().zip(others).zip(sizes);
        for (row, ((sum, other), size)) in sums.enumerate() {
            let total = activity_of(self.columns.as_slice(), program.entries.row(row)).wrapping_add(
                i128::from(*other),
            );
            *sum = held(shifted(total, VALUE_FRACTION - i32::from(*size)));
        }
    }

    /// Sets the value of each member.
    fn set_values(&mut self) {
        let members = self.basis.members.iter();
        for (place, (value, member)) in self.values.iter_mut().zip(members).enumerate() {
            let inverse = self.basis.inverse.row(place);
            *value = value_of(inverse, self.activity.as_slice(), member.scale);
        }
    }

    /// Sets all that follows from the basis.
    pub(crate) fn settle(&mut self, program: &Program) {
        self.set_costs(program);
        self.set_prices(program);
        self.set_reduced(program);
        self.set_activity(program);
        self.set_values();
    }

    /// The member at a place, if it is outside its ends by more than what rounding can make.
    fn excess_at(&self, place: usize, value: i128) -> Option<Leaving> {
        let member = self.basis.members.get(place)?;
        let column = self.columns.get(member.column)?;
        let above = value.wrapping_sub(i128::from(column.high) << VALUE_FRACTION);
        let below = (i128::from(column.low) << VALUE_FRACTION).wrapping_sub(value);
        let excess = above.max(below);
        if excess <= shifted(1, (i32::from(member.scale) + 2).clamp(6, 60)) {
            return None;
        }
        Some(Leaving {
            place,
            is_above: above > below,
            excess,
        })
    }

    /// How far a member is outside its ends, over the size of its row of the inverse.
    fn score_of(&self, leaving: Leaving) -> i128 {
        let scale = self
            .basis
            .members
            .get(leaving.place)
            .map_or(0, |member| member.scale);
        let size = greatest_size(self.basis.inverse.row(leaving.place));
        let norm = shifted(size, i32::from(scale).clamp(-40, 20)).max(1);
        let by = (100 - i32::from(bits(leaving.excess))).min(40);
        shifted(leaving.excess, by).checked_div(norm).unwrap_or(0)
    }

    /// The member that is farthest outside its ends.
    fn leaving(&self) -> Option<Leaving> {
        let mut best = None;
        let mut most = -1;
        for (place, value) in self.values.iter().enumerate() {
            let Some(leaving) = self.excess_at(place, *value) else {
                continue;
            };
            let score = self.score_of(leaving);
            if score > most {
                most = score;
                best = Some(leaving);
            }
        }
        best
    }

    /// Sets the direction in which the price of a member changes alone.
    fn set_direction(&mut self, program: &Program, leaving: Leaving) {
        let inverse = self.basis.inverse.row(leaving.place);
        let size = i32::from(bits(greatest_size(inverse)));
        let window = program.scale.window.saturating_sub(4).saturating_sub(size);
        let sizes = program.scale.rows.iter().zip(self.ray.iter_mut());
        for ((step, number), (bits, ray)) in self.direction.iter_mut().zip(inverse).zip(sizes) {
            *ray = if leaving.is_above {
                number.saturating_neg()
            } else {
                *number
            };
            *step = shifted(i128::from(*ray), window.saturating_sub(i32::from(*bits)));
        }
    }

    /// Sets how fast the reduced cost of each column changes along the direction.
    fn set_slopes(&mut self, program: &Program) {
        for column in self.columns.iter_mut() {
            column.total = 0;
        }
        for (row, step) in self.direction.iter().enumerate() {
            add_times(self.columns.as_mut_slice(), *step, program.entries.row(row));
        }
        let sizes = program.scale.rows.as_slice();
        let shift = spare_bits(1, self.direction.as_slice(), sizes).unsigned_abs();
        for column in self.columns.iter_mut() {
            column.slope = held(column.total.wrapping_shr(shift));
        }
    }

    /// How fast the bound changes along the direction at first.
    fn first_slope(&self, leaving: Leaving) -> i128 {
        let member = self.basis.members.get(leaving.place);
        let column = member.and_then(|member| self.columns.get(member.column));
        let slope = column.map_or(0, |column| size_of(i128::from(column.slope)));
        leaving
            .excess
            .saturating_mul(slope >> SLOPE_SHIFT)
            .saturating_neg()
    }

    /// Takes one column out of the basis and another in. Answers whether that could be done.
    fn step(&mut self, program: &Program, leaving: Leaving, column: usize) -> bool {
        let scale = program.scale_of(column);
        let member = Member { column, scale };
        let before = self
            .basis
            .members
            .get(leaving.place)
            .map_or(0, |member| member.column);
        self.basis.set_image(program, member);
        if !self.basis.exchange(leaving.place, member) {
            return false;
        }
        if before < self.columns.len() {
            let left = &mut self.columns[before];
            left.is_basic = false;
            left.is_high = leaving.is_above;
        }
        if column < self.columns.len() {
            self.columns[column].is_basic = true;
        }
        true
    }

    /// Steps until the basis is best, but at most so many times.
    pub(crate) fn run(
        &mut self,
        alloc: Global,
        program: &Program,
        most: usize,
        turns: &mut Turns,
    ) -> Result<End, AllocError> {
        let mut idle: usize = 0;
        for turn in 0..most {
            if turn % STEPS_BETWEEN == STEPS_BETWEEN - 1 {
                self.refresh(alloc, program)?;
            }
            self.settle(program);
            let Some(leaving) = self.leaving() else {
                return Ok(End::Solved);
            };
            if idle > MOST_IDLE || !turns.take() {
                return Ok(End::Stopped);
            }
            self.set_direction(program, leaving);
            self.set_slopes(program);
            find_breakpoints(self.columns.as_slice(), &mut self.points)?;
            let slope = self.first_slope(leaving);
            let Some(point) = turning_point(self.points.as_mut_slice(), slope) else {
                return Ok(End::Ray);
            };
            if !self.step(program, leaving, point.column) {
                self.refresh(alloc, program)?;
                idle = idle.saturating_add(MOST_IDLE / 2);
            }
            idle = idle.saturating_add(usize::from(point.is_at_once));
        }
        self.settle(program);
        Ok(End::Stopped)
    }

    /// The dual bound at the prices, in units of the program's scale, but for what the variables left out cost.
    pub(crate) fn bound(&self, program: &Program) -> i128 {
        let mut total: i128 = 0;
        for column in self.columns.iter() {
            total = total.saturating_add(times(column.reduced, column.rest()));
        }
        total = shifted(total, self.shift);
        for (factor, other) in self.weighed.iter().zip(&program.others) {
            total = total.saturating_sub(factor.saturating_mul(i128::from(*other)));
        }
        total
    }
}

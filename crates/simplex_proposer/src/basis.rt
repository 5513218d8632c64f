//! A basis of the program of a box: one column a row, and the inverse of their table.

use crate::columns::{FRACTION, Program};
use crate::fixed::{MOST, dot, held, size_of, times};
use crate::table::Table;
use std::alloc::{AllocError, Global};
use std::mem;

/// The least size of a number that a column may enter a first basis by.
const LEAST_PIVOT: i128 = 1 << 26;

/// A column of a basis, and by which power of two it has grown there.
#[derive(Clone, Copy, Debug)]
pub(crate) struct Member {
    pub column: usize,
    pub scale: i16,
}

/// The columns of a basis, with the inverse of their table in fixed point.
#[derive(Debug, Drop)]
pub(crate) struct Basis {
    pub members: Vec<Member>,
    pub inverse: Table,
    spare: Table,
    /// The numbers of a column, each over its row's greatest.
    normal: Vec<i64>,
    /// The same column in terms of the basis.
    pub image: Vec<i128>,
    /// Whether a first basis keeps what is at a place.
    is_kept: Vec<bool>,
}

/// Divides a row by the pivot into another table. Answers whether every number is small enough.
fn divide_row(from: &Table, into: &mut Table, place: usize, pivot: i128) -> bool {
    for (column, number) in from.row(place).iter().enumerate() {
        let grown = i128::from(*number) << FRACTION;
        let Some(part) = grown.checked_div(pivot) else {
            return false;
        };
        if size_of(part) > MOST {
            return false;
        }
        into.set(place, column, held(part));
    }
    true
}

/// Takes so much of the pivot's row, as it is in the other table, from a row, into that table. Answers whether every
/// number is small enough.
fn reduce_row(from: &Table, into: &mut Table, place: usize, pivot: usize, factor: i128) -> bool {
    if size_of(factor) > 2 * MOST {
        return false;
    }
    for (column, number) in from.row(place).iter().enumerate() {
        let taken = factor.wrapping_mul(i128::from(into.at(pivot, column))) >> FRACTION;
        let left = i128::from(*number).wrapping_sub(taken);
        if size_of(left) > MOST {
            return false;
        }
        into.set(place, column, held(left));
    }
    true
}

impl Basis {
    /// The basis of the sums of the rows.
    pub(crate) fn new(alloc: Global, height: usize) -> Result<Basis, AllocError> {
        let first = Member {
            column: 0,
            scale: 0,
        };
        Ok(Basis {
            members: vec![in alloc; first; height]?,
            inverse: Table::new(alloc, height, height)?,
            spare: Table::new(alloc, height, height)?,
            normal: vec![in alloc; 0i64; height]?,
            image: vec![in alloc; 0i128; height]?,
            is_kept: vec![in alloc; false; height]?,
        })
    }

    /// The same basis once more.
    pub(crate) fn copy(&self, alloc: Global) -> Result<Basis, AllocError> {
        Ok(Basis {
            members: Vec::from_slice(alloc, self.members.as_slice())?,
            inverse: self.inverse.copy(alloc)?,
            spare: self.spare.copy(alloc)?,
            normal: Vec::from_slice(alloc, self.normal.as_slice())?,
            image: Vec::from_slice(alloc, self.image.as_slice())?,
            is_kept: Vec::from_slice(alloc, self.is_kept.as_slice())?,
        })
    }

    /// Sets what a column is in terms of the basis.
    pub(crate) fn set_image(&mut self, program: &Program, member: Member) {
        let sizes = program.scale.rows.as_slice();
        for (row, (number, size)) in self.normal.iter_mut().zip(sizes).enumerate() {
            *number = program.normal_entry(row, *size, member.column, member.scale);
        }
        for (place, number) in self.image.iter_mut().enumerate() {
            *number = dot(self.inverse.row(place), self.normal.as_slice()) >> FRACTION;
        }
    }

    /// Puts a column, whose image is set, in place of another. Answers whether that could be done.
    pub(crate) fn exchange(&mut self, place: usize, member: Member) -> bool {
        let Some(pivot) = self.image.get(place) else {
            return false;
        };
        if !divide_row(&self.inverse, &mut self.spare, place, *pivot) {
            return false;
        }
        for (other, factor) in self.image.iter().enumerate() {
            if other != place
                && !reduce_row(&self.inverse, &mut self.spare, other, place, *factor)
            {
                return false;
            }
        }
        mem::swap(&mut self.inverse, &mut self.spare);
        if place < self.members.len() {
            self.members[place] = member;
        }
        true
    }

    /// Goes back to the sums of the rows.
    fn reset(&mut self, program: &Program) {
        let sizes = program.scale.rows.iter();
        for (row, (member, size)) in self.members.iter_mut().zip(sizes).enumerate() {
            *member = Member {
                column: program.sum_of(row),
                scale: *size,
            };
        }
        for row in 0..program.height() {
            for column in 0..program.height() {
                let number = if row == column { -1 << FRACTION } else { 0 };
                self.inverse.set(row, column, number);
            }
        }
        self.is_kept.fill(false);
    }

    /// The place that isn't kept and where the image is greatest, if that is large enough.
    fn widest_place(&self) -> Option<usize> {
        let mut best = None;
        let mut most = LEAST_PIVOT;
        for (place, (number, kept)) in self.image.iter().zip(&self.is_kept).enumerate() {
            if !*kept && size_of(*number) >= most {
                most = size_of(*number);
                best = Some(place);
            }
        }
        best
    }

    /// Keeps what is at a place.
    fn keep(&mut self, place: usize) {
        if place < self.is_kept.len() {
            self.is_kept[place] = true;
        }
    }

    /// Takes a column into a first basis, unless it would be nearly dependent.
    fn add(&mut self, program: &Program, column: usize) {
        let scale = program.scale_of(column);
        let member = Member { column, scale };
        self.set_image(program, member);
        if let Some(place) = self.widest_place() {
            if self.exchange(place, member) {
                self.keep(place);
            }
        }
    }

    /// Begins again with these columns, the first ones first, as far as they are independent; sums of rows stand for
    /// the rest.
    pub(crate) fn begin(&mut self, program: &Program, preferred: &[usize]) {
        self.reset(program);
        for column in preferred {
            if let Some(row) = program.row_of(*column) {
                self.keep(row);
            }
        }
        for column in preferred {
            if program.row_of(*column).is_none() {
                self.add(program, *column);
            }
        }
    }

    /// The price of a row: the costs of the members along its column of the inverse.
    pub(crate) fn price(&self, costs: &[i64], row: usize) -> i64 {
        let mut total: i128 = 0;
        for (place, cost) in costs.iter().enumerate() {
            let part = times(self.inverse.at(place, row), *cost) >> FRACTION;
            total = total.wrapping_add(part);
        }
        held(total)
    }
}

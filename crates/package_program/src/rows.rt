//! The rows of a program, which keep its conditions.
ghost use Rattle.std.specs.Prelude.{◌≡◌, ◌^◌, ◌≤◌, ◌++◌, ◌∷◌, [], map, neg_ℤ, true, false, unsigned_abs, OnOk};
ghost use Rattle.std.specs.List.{AllByRecursion};
ghost use Rattle.bound_query.specs.Fits.{IsBoundConjunct};
ghost use Rattle.bound_query.specs.Terms.{compared};
ghost use Rattle.package_program.specs.Program.{signed, held, signed_rows, held_sides};
ghost use Rattle.package_program.specs.Numbers.{IsSmall};

use bound_query::{BoundConjunct, Op};
use sqlite_items::Items;
use std::alloc::{AllocError, Global};

/// The most that a right-hand side is in size.
const MOST_SIDE: i128 = 1 << 61;

fn held(number: i128) -> i64
    ensures { result ≡ held number }
{
    number.min(MOST_SIDE).max(-MOST_SIDE) as i64
}

/// The same numbers with the other sign, in the room that they have.
pub fn negated(numbers: Items<i64>) -> Items<i64>
    requires { AllByRecursion IsSmall numbers }
    ensures { result ≡ map neg_ℤ numbers }
{
    let mut numbers = numbers;
    for place in 0..numbers.len() {
        let number = numbers.as_slice()[place];
        numbers.set(place, -number);
    }
    numbers
}

/// Rows and their right-hand sides, as far as they are made.
#[derive(Drop)]
pub struct Rows {
    pub rows: Items<Items<i64>>,
    pub rhs: Items<i64>,
}

impl Rows {
    /// No row yet.
    pub fn new(alloc: Global) -> Rows
        ensures rows { result.rows ≡ [] }
        ensures rhs { result.rhs ≡ [] }
    {
        Rows {
            rows: Items::new(alloc),
            rhs: Items::new(alloc),
        }
    }

    fn at_most(&mut self, sum: Items<i64>, most: i128) -> Result<(), AllocError>
        ensures rows { OnOk result (self.new.rows ≡ self.old.rows ++ map (signed false) sum ∷ []) }
        ensures rhs { OnOk result (self.new.rhs ≡ self.old.rhs ++ held most ∷ []) }
    {
        self.rows.push(sum)?;
        self.rhs.push(held(most))
    }

    fn at_least(&mut self, sum: Items<i64>, least: i128) -> Result<(), AllocError>
        requires sum { AllByRecursion IsSmall sum }
        requires least { unsigned_abs least ≤ 2 ^ 80 }
        ensures rows { OnOk result (self.new.rows ≡ self.old.rows ++ map (signed true) sum ∷ []) }
        ensures rhs { OnOk result (self.new.rhs ≡ self.old.rhs ++ held (neg_ℤ least) ∷ []) }
    {
        self.at_most(negated(sum), -least)
    }

    fn between(
        &mut self,
        alloc: Global,
        sum: Items<i64>,
        least: i128,
        most: i128,
    ) -> Result<(), AllocError>
        requires sum { AllByRecursion IsSmall sum }
        requires least { unsigned_abs least ≤ 2 ^ 80 }
        ensures rows { OnOk result (self.new.rows
            ≡ self.old.rows ++ map (signed false) sum ∷ map (signed true) sum ∷ []) }
        ensures rhs { OnOk result (self.new.rhs
            ≡ self.old.rhs ++ held most ∷ held (neg_ℤ least) ∷ []) }
    {
        let copy = Items::from_slice(alloc, sum.as_slice())?;
        self.at_most(copy, most)?;
        self.at_least(sum, least)
    }

    /// The rows of one conjunct more, whose sum this is.
    pub fn add(
        &mut self,
        alloc: Global,
        conjunct: &BoundConjunct,
        sum: Items<i64>,
    ) -> Result<(), AllocError>
        requires conjunct { IsBoundConjunct conjunct.now }
        requires sum { AllByRecursion IsSmall sum }
        ensures rows { OnOk result (self.new.rows ≡ self.old.rows
            ++ signed_rows sum (compared conjunct.now.op conjunct.now.low conjunct.now.high)) }
        ensures rhs { OnOk result (self.new.rhs ≡ self.old.rhs
            ++ held_sides (compared conjunct.now.op conjunct.now.low conjunct.now.high)) }
    {
        match conjunct.op {
            Op::Le => self.at_most(sum, conjunct.high),
            Op::Lt => self.at_most(sum, conjunct.high - 1),
            Op::Ge => self.at_least(sum, conjunct.high),
            Op::Gt => self.at_least(sum, conjunct.high + 1),
            Op::Eq => self.between(alloc, sum, conjunct.high, conjunct.high),
            Op::Between => self.between(alloc, sum, conjunct.low, conjunct.high),
        }
    }
}

//! The multipliers of a dual bound.
ghost use Rattle.std.specs.Prelude.{◌≡◌, ◌≤◌, length, IfOk};
ghost use Rattle.lin_bound.specs.Problem.{row_count};
ghost use Rattle.lin_bound.specs.Bound.{IsMult, plain};

use crate::problem::Problem;
use sqlite_items::Items;
use std::alloc::{AllocError, Global};

/// One multiplier of the cost, and one a row.
#[derive(Debug, Drop)]
pub struct Mult {
    pub d: u32,
    pub lambda: Items<u32>,
}

/// Copies numbers over others, in the room that these have.
fn overwrite(from: &[u32], into: &mut Items<u32>)
    requires { length from.now ≡ length into.old }
    ensures { into.new ≡ from.now }
{
    for place in 0..from.len() {
        into.set(place, from[place]);
    }
}

impl Mult {
    /// The same multipliers once more.
    pub fn copy(&self, alloc: Global) -> Result<Mult, AllocError>
        ensures { IfOk result (λ mult. mult ≡ self.now) }
    {
        Ok(Mult {
            d: self.d,
            lambda: Items::from_slice(alloc, self.lambda.as_slice())?,
        })
    }

    /// Makes them those multipliers, which are as many. It takes no memory.
    pub fn copy_from(&mut self, from: &Mult)
        requires { length from.now.lambda ≡ length self.old.lambda }
        ensures { self.new ≡ from.now }
    {
        self.d = from.d;
        overwrite(from.lambda.as_slice(), &mut self.lambda);
    }
}

/// The plain multipliers of a number: 0 takes the cost alone, and j the j-th row alone, counted from 1.
pub fn plain_mult(alloc: Global, problem: &Problem, number: usize) -> Result<Mult, AllocError>
    requires { number ≤ row_count problem.now }
    ensures value { IfOk result (λ mult. mult ≡ plain problem.now number) }
    ensures mult { IfOk result (λ mult. IsMult problem.now mult) }
{
    let mut lambda = vec![in alloc; 0u32; problem.row_count()]?;
    if number == 0 {
        return Ok(Mult {
            d: 1,
            lambda: Items::from_vec(lambda),
        });
    }
    lambda[number - 1] = 1;
    Ok(Mult {
        d: 0,
        lambda: Items::from_vec(lambda),
    })
}

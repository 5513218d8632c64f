//! What a search carries from one node to the next.
ghost use Rattle.std.specs.Prelude.{◌≡◌, IfOk};
ghost use Rattle.lin_bound.specs.Bound.{IsMult};

use lin_bound::{Mult, Problem, plain_mult};
use std::alloc::{AllocError, Global};

/// So many proposals in a row without a better point are enough to look for points less often.
const FRUITLESS: u32 = 32;

/// Then points are looked for once in so many proposals.
const SELDOM: u32 = 8;

/// Multipliers of a node before, where boxes go on to be split by them, and how long no better point was found.
#[derive(Debug, Drop)]
pub struct Guide {
    /// They weigh the cost and a row, but for the first ones.
    pub mult: Mult,
    /// The length of the path of a box that is to be split by them, if it can be.
    pub chain: Option<usize>,
    /// How many proposals there were since points near one were better than the best.
    pub fruitless: u32,
}

impl Guide {
    /// The multipliers of the cost alone.
    pub fn new(alloc: Global, problem: &Problem) -> Result<Guide, AllocError>
        ensures { IfOk result (λ guide. IsMult problem.now guide.mult) }
    {
        Ok(Guide {
            mult: plain_mult(alloc, problem, 0)?,
            chain: None,
            fruitless: 0,
        })
    }

    /// Keeps multipliers, unless they weigh the cost alone or rows alone.
    pub fn remember(&mut self, problem: &Problem, mult: &Mult)
        requires mult { IsMult problem.now mult.now }
        requires guide { IsMult problem.now self.old.mult }
        ensures { IsMult problem.now self.new.mult }
    {
        if mult.d > 0 && mult.lambda.as_slice().iter().any(|each| *each > 0) {
            self.mult.copy_from(mult);
        }
    }

    /// Whether a box whose path is so long is to be split by the multipliers. It is asked once.
    pub fn leads_at(&mut self, depth: usize) -> bool
        ensures { self.new.mult ≡ self.old.mult }
    {
        let leads = self.chain == Some(depth);
        self.chain = None;
        leads
    }

    /// Whether points near one more proposal are to be looked for. It is asked once for each.
    pub fn wants_points(&mut self) -> bool
        ensures { self.new.mult ≡ self.old.mult }
    {
        let before = self.fruitless;
        self.fruitless = before.saturating_add(1);
        before < FRUITLESS || before % SELDOM == 0
    }
}

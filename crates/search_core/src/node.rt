//! One node of a search: its box is closed, split, or a better point.
ghost use Rattle.std.specs.Prelude.{◌≡◌, ◌^◌, ◌<◌, ◌↔◌, length, IfOk};
ghost use Rattle.lin_bound.specs.Box.{IsRegion, lower};
ghost use Rattle.lin_bound.specs.Bound.{IsMult};
ghost use Rattle.search_core.specs.Nodes.{IsBetter, IsSplitPlace, IsHandled, IsWork};
ghost use Rattle.search_core.specs.declared.node.Handled.TheVariants.{Better};

use crate::boxes::{first_wide, middle_of};
use crate::multipliers::is_closed;
use lin_bound::{Branch, Mult, Point, Problem, Region, closes, plain_mult};
use simplex_proposer::Proposal;
use sqlite_items::Items;
use std::alloc::{AllocError, Global};

/// What comes of a box.
#[derive(Clone, Copy, Debug, PartialEq, Eq)]
pub enum Handled {
    /// The multipliers chosen close it.
    Closed,
    /// It is to be split: one half has at most `at` of the variable, the other more.
    Split { var: u32, at: u64 },
    /// Its one point, the low ends, is feasible and better than any seen.
    Better,
}

/// Room for the multipliers that are chosen for a box and for a better point, so that handling one takes no memory.
#[derive(Debug, Drop)]
pub struct Work {
    pub mult: Mult,
    pub point: Point,
}

impl Work {
    /// Room that fits the problem.
    pub fn new(alloc: Global, problem: &Problem) -> Result<Work, AllocError>
        ensures { IfOk result (λ work. IsWork problem.now work) }
    {
        let mult = plain_mult(alloc, problem, 0)?;
        let point = Point::new(Items::from_slice(alloc, problem.uppers())?);
        Ok(Work { mult, point })
    }
}

/// The branch to the lower half at the place proposed.
fn lower_of(proposal: &Proposal) -> Branch
    ensures { result ≡ lower proposal.now.var proposal.now.at }
{
    Branch {
        at: proposal.at,
        var: proposal.var,
        high: false,
    }
}

/// Where the box is split: at the place proposed, where that divides it, else in the middle of the first variable with
/// room. Nowhere where the box is one point.
pub fn split_place(region: &Region, proposal: &Proposal) -> Option<(u32, u64)>
    requires same { length region.now.low ≡ length region.now.high }
    requires few { length region.now.low < 2 ^ 32 }
    ensures { IsSplitPlace region.now proposal.now result }
{
    if region.is_split_by(lower_of(proposal)) {
        return Some((proposal.var, proposal.at));
    }
    let variable = first_wide(region)?;
    Some((variable as u32, middle_of(region, variable)))
}

/// Judges one box for the value seen: closed by the multipliers proposed, else by the first plain ones that close it,
/// else split, else a better point. The multipliers chosen are in the work: those that close the box, or those proposed
/// if it is split. So is a better point. It takes no memory.
pub fn handle_node(
    problem: &Problem,
    region: &Region,
    seen: Option<i64>,
    proposal: &Proposal,
    work: &mut Work,
) -> Handled
    requires region { IsRegion problem.now region.now }
    requires proposal { IsMult problem.now proposal.now.mult }
    requires work { IsWork problem.now work.old }
    ensures work { IsWork problem.now work.new }
    ensures handled { IsHandled problem.now region.now seen proposal.now work.new.mult result }
    ensures better { (result ≡ Better) ↔ IsBetter problem.now region.now seen }
    ensures point { result ≡ Better → work.new.point ≡ region.now.low }
{
    if closes(problem, region, &proposal.mult, seen) {
        work.mult.copy_from(&proposal.mult);
        return Handled::Closed;
    }
    if is_closed(problem, region, seen, &mut work.mult) {
        return Handled::Closed;
    }
    let _legal = problem.variables();
    let Some((var, at)) = split_place(region, proposal) else {
        work.point.copy_from(region.low.as_slice());
        return Handled::Better;
    };
    work.mult.copy_from(&proposal.mult);
    Handled::Split { var, at }
}

//! A proposal for a box, from the prices of its linear program.
ghost use Rattle.std.specs.Prelude.{◌≡◌, IfOk, IfSome};
ghost use Rattle.lin_bound.specs.Box.{IsRegion};
ghost use Rattle.lin_bound.specs.Bound.{IsMult};

use crate::columns::{Program, columns_of, end_of};
use crate::dual::{Dual, End};
use crate::multipliers::{mult_of, mult_of_both};
use crate::nearest::{Guide, nearest, turned};
use crate::place::choose_place;
use crate::proposal::Proposal;
use crate::ranged::{Ranged, RangedRow, coefficient, ranged_rows};
use crate::rounding::WholePrices;
use crate::turns::Turns;
use lin_bound::{Mult, Problem, Region, bound, plain_mult};
use std::alloc::{AllocError, Global};

/// How many variables a program begins with, where prices say which matter.
const CORE: usize = 200;

/// A problem of at most this many variables is solved over all of them.
const MOST_WHOLE: usize = 400;

/// How often variables that turn out to matter are taken in.
const MOST_ROUNDS: usize = 10;

/// The variables of a program, and those that rest at the ends of their weights' signs.
#[derive(Debug, Drop)]
struct Core {
    variables: Vec<usize>,
    is_in: Vec<bool>,
    weights: Vec<i64>,
}

/// A program with the basis that a run ends at.
#[derive(Debug, Drop)]
struct Solution {
    program: Program,
    dual: Dual,
    end: End,
}

impl Core {
    /// These variables. The others rest by the weights.
    fn new(alloc: Global, variables: Vec<usize>, weights: Vec<i64>) -> Result<Core, AllocError> {
        let mut core = Core {
            is_in: vec![in alloc; false; weights.len()]?,
            variables: Vec::new(alloc),
            weights,
        };
        core.add(variables.as_slice())?;
        Ok(core)
    }

    /// Takes more variables in.
    fn add(&mut self, variables: &[usize]) -> Result<(), AllocError> {
        for variable in variables {
            self.variables.push(*variable)?;
            if *variable < self.is_in.len() {
                self.is_in[*variable] = true;
            }
        }
        Ok(())
    }

    /// What the variables that are left out add to a row. The sum fits, since a problem keeps its sums small.
    fn others_in(&self, problem: &Problem, region: &Region, row: usize) -> i64 {
        let mut total: i64 = 0;
        for (variable, (is_in, weight)) in self.is_in.iter().zip(&self.weights).enumerate() {
            if *is_in {
                continue;
            }
            let ends = if *weight > 0 {
                &region.high
            } else {
                &region.low
            };
            let count = end_of(ends.as_slice(), variable);
            if count != 0 {
                let part = coefficient(problem, row, variable).wrapping_mul(count);
                total = total.wrapping_add(part);
            }
        }
        total
    }

    /// What they add to each ranged row.
    fn others(
        &self,
        alloc: Global,
        problem: &Problem,
        region: &Region,
        rows: &[RangedRow],
    ) -> Result<Vec<i64>, AllocError> {
        let mut others = Vec::with_capacity(alloc, rows.len())?;
        for row in rows {
            others.push(self.others_in(problem, region, row.row))?;
        }
        Ok(others)
    }

    /// Which columns a first basis is to have by the guide's prices: the sums of the rows without one, and the
    /// variables of the smallest weights.
    fn preferred(&self, alloc: Global, guide: &Guide) -> Result<Vec<usize>, AllocError> {
        let mut columns = Vec::new(alloc);
        for (row, factor) in guide.factors.iter().enumerate() {
            if *factor == 0 {
                columns.push(self.variables.len().saturating_add(row))?;
            }
        }
        let wanted = guide.factors.len().saturating_sub(columns.len());
        let mut order = Vec::with_capacity(alloc, self.variables.len())?;
        for (column, variable) in self.variables.iter().enumerate() {
            let weight = self.weights.get(*variable).copied().unwrap_or(0);
            order.push((weight.unsigned_abs(), column))?;
        }
        order.sort_unstable();
        for (_, column) in order
            .iter()
            .take(wanted.saturating_mul(3).saturating_add(4))
        {
            columns.push(*column)?;
        }
        Ok(columns)
    }
}

/// Solves the program of a core from a basis of these columns.
fn solve(
    alloc: Global,
    problem: &Problem,
    region: &Region,
    rows: &[RangedRow],
    core: &Core,
    preferred: &[usize],
    turns: &mut Turns,
) -> Result<Solution, AllocError> {
    let others = core.others(alloc, problem, region, rows)?;
    let columns = columns_of(alloc, problem, region, rows, core.variables.as_slice())?;
    let variables = Vec::from_slice(alloc, core.variables.as_slice())?;
    let program = Program::new(alloc, problem, rows, columns.as_slice(), variables, others)?;
    let mut dual = Dual::new(alloc, &program, columns)?;
    dual.begin(&program, preferred);
    let most = rows.len().saturating_mul(4).saturating_add(40);
    let end = dual.run(alloc, &program, most, turns)?;
    Ok(Solution { program, dual, end })
}

/// The members of a basis, in a program with so many more variables.
fn members_after(
    alloc: Global,
    solution: &Solution,
    more: usize,
) -> Result<Vec<usize>, AllocError> {
    let mut columns = Vec::with_capacity(alloc, solution.dual.basis.members.len())?;
    for member in solution.dual.basis.members.iter() {
        let is_sum = solution.program.row_of(member.column).is_some();
        columns.push(member.column.saturating_add(if is_sum { more } else { 0 }))?;
    }
    Ok(columns)
}

/// The variables of the smallest weights by a guide.
fn nearest_core(
    alloc: Global,
    problem: &Problem,
    rows: &[RangedRow],
    guide: &Guide,
) -> Result<Core, AllocError> {
    let weights = guide.weights(alloc, problem, rows)?;
    let variables = nearest(alloc, weights.as_slice(), problem.uppers(), CORE)?;
    Core::new(alloc, variables, weights)
}

/// Solves the program of a core, and takes in the variables that turn out to matter.
fn solve_with_more(
    alloc: Global,
    problem: &Problem,
    region: &Region,
    rows: &[RangedRow],
    guide: Guide,
    turns: &mut Turns,
) -> Result<Solution, AllocError> {
    let mut core = nearest_core(alloc, problem, rows, &guide)?;
    let preferred = core.preferred(alloc, &guide)?;
    let mut solution = solve(
        alloc,
        problem,
        region,
        rows,
        &core,
        preferred.as_slice(),
        turns,
    )?;
    for _ in 1..MOST_ROUNDS {
        let guide = Guide::of_basis(alloc, &solution.program, &solution.dual)?;
        let weights = guide.weights(alloc, problem, rows)?;
        let (before, after) = (core.weights.as_slice(), weights.as_slice());
        let more = turned(alloc, region, core.is_in.as_slice(), before, after)?;
        if more.is_empty() {
            return Ok(solution);
        }
        let members = members_after(alloc, &solution, more.len())?;
        core.add(more.as_slice())?;
        solution = solve(
            alloc,
            problem,
            region,
            rows,
            &core,
            members.as_slice(),
            turns,
        )?;
    }
    Ok(solution)
}

/// All variables that may be more than 0, weighed by a guide, or by their costs if there is none.
fn whole_core(
    alloc: Global,
    problem: &Problem,
    rows: &[RangedRow],
    guide: &Option<Guide>,
) -> Result<Core, AllocError> {
    let weights = match guide {
        Some(guide) => guide.weights(alloc, problem, rows)?,
        None => vec![in alloc; 0i64; problem.variables()]?,
    };
    let mut variables = Vec::with_capacity(alloc, weights.len())?;
    for (variable, upper) in problem.uppers().iter().enumerate() {
        if *upper > 0 {
            variables.push(variable)?;
        }
    }
    Core::new(alloc, variables, weights)
}

/// Solves the program of all variables.
fn solve_whole(
    alloc: Global,
    problem: &Problem,
    region: &Region,
    rows: &[RangedRow],
    guide: &Option<Guide>,
    turns: &mut Turns,
) -> Result<Solution, AllocError> {
    let core = whole_core(alloc, problem, rows, guide)?;
    let preferred = match guide {
        Some(guide) => core.preferred(alloc, guide)?,
        None => Vec::new(alloc),
    };
    solve(
        alloc,
        problem,
        region,
        rows,
        &core,
        preferred.as_slice(),
        turns,
    )
}

/// Multipliers that show the box to be empty, by the direction that a run ended with.
fn empty_box(
    alloc: Global,
    problem: &Problem,
    region: &Region,
    rows: &[RangedRow],
    solution: &Solution,
) -> Result<Option<Mult>, AllocError>
    requires { IsRegion problem.now region.now }
    ensures { IfOk result (λ found. IfSome found (λ mult. IsMult problem.now mult)) }
{
    let scale = &solution.program.scale;
    let mut prices = WholePrices::of_ray(alloc, scale, solution.dual.ray.as_slice())?;
    let mult = mult_of(alloc, problem, rows, &prices)?;
    if bound(problem, region, &mult) < 0 {
        return Ok(Some(mult));
    }
    prices.turn();
    let mult = mult_of(alloc, problem, rows, &prices)?;
    if bound(problem, region, &mult) < 0 {
        return Ok(Some(mult));
    }
    Ok(None)
}

/// What these multipliers propose, and no place.
fn without_place(mult: Mult) -> Proposal
    ensures { result.mult ≡ mult }
{
    Proposal {
        mult,
        var: 0,
        at: u64::MAX,
    }
}

/// The proposal of a solution.
fn proposal_of(
    alloc: Global,
    problem: &Problem,
    rows: &[RangedRow],
    solution: &Solution,
    turns: &mut Turns,
) -> Result<Proposal, AllocError>
    ensures { IfOk result (λ proposal. IsMult problem.now proposal.mult) }
{
    let (program, dual) = (&solution.program, &solution.dual);
    let place = choose_place(alloc, program, dual, turns)?;
    let prices = WholePrices::of_basis(alloc, &program.scale, dual.prices.as_slice(), turns)?;
    let mult = mult_of(alloc, problem, rows, &prices)?;
    let Some(place) = place else {
        return Ok(without_place(mult));
    };
    Ok(Proposal {
        mult,
        var: u32::try_from(place.variable).unwrap_or(0),
        at: place.at,
    })
}

/// The solution for the rows that can bind.
fn solution_of(
    alloc: Global,
    problem: &Problem,
    region: &Region,
    rows: &[RangedRow],
    hint: &Mult,
    turns: &mut Turns,
) -> Result<Solution, AllocError> {
    let guide = Guide::of_mult(alloc, rows, hint)?;
    if problem.variables() <= MOST_WHOLE {
        return solve_whole(alloc, problem, region, rows, &guide, turns);
    }
    if let Some(guide) = guide {
        return solve_with_more(alloc, problem, region, rows, guide, turns);
    }
    let whole = solve_whole(alloc, problem, region, rows, &guide, turns)?;
    if whole.end == End::Ray {
        return Ok(whole);
    }
    let guide = Guide::of_basis(alloc, &whole.program, &whole.dual)?;
    solve_with_more(alloc, problem, region, rows, guide, turns)
}

/// Multipliers that bound the box nearly as well as its linear program does, or that show it to be empty, and a place
/// to split it at. The hint is any multipliers, best those of a box like it. It takes a few passes over the rows, and
/// at most 10,000 turns of iteration.
pub fn propose(
    alloc: Global,
    problem: &Problem,
    region: &Region,
    hint: &Mult,
) -> Result<Proposal, AllocError>
    requires region { IsRegion problem.now region.now }
    requires hint { IsMult problem.now hint.now }
    ensures { IfOk result (λ proposal. IsMult problem.now proposal.mult) }
{
    let rows = match ranged_rows(alloc, problem, region)? {
        Ranged::Rows(rows) => rows,
        Ranged::Unmeetable(row) => {
            let number = row.saturating_add(1).min(problem.row_count());
            return Ok(without_place(plain_mult(alloc, problem, number)?));
        }
        Ranged::Crossed(row) => {
            return Ok(without_place(mult_of_both(alloc, problem, row)?));
        }
    };
    if rows.is_empty() {
        return Ok(without_place(plain_mult(alloc, problem, 0)?));
    }
    let mut turns = Turns::new();
    let rows = rows.as_slice();
    let mut solution = solution_of(alloc, problem, region, rows, hint, &mut turns)?;
    if solution.end == End::Ray {
        if let Some(mult) = empty_box(alloc, problem, region, rows, &solution)? {
            return Ok(without_place(mult));
        }
        solution = solve_whole(alloc, problem, region, rows, &None, &mut turns)?;
        if let Some(mult) = empty_box(alloc, problem, region, rows, &solution)? {
            return Ok(without_place(mult));
        }
    }
    proposal_of(alloc, problem, rows, &solution, &mut turns)
}

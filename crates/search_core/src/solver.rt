//! Solvers, and the one that searches by itself.
ghost use Rattle.std.specs.Prelude.{◌≡◌, ◌≢◌, [], ◌<◌, ◌≤◌, length, All, IfOk, OnErr, MatchBool, None};
ghost use Rattle.lin_bound.specs.Box.{IsRegion};
ghost use Rattle.lin_bound.specs.Bound.{IsMult};
ghost use Rattle.cert_tree.specs.declared.records.Record.{Record as RecordData};
ghost use Rattle.cert_tree.specs.Records.{IsBalanced};
ghost use Rattle.cert_tree.specs.Laws.{IsPlainlyRight};
ghost use Rattle.cert_tree.specs.Multipliers.{ActIsLegal};
ghost use Rattle.search_core.specs.Search.{IsFound, value_in};
ghost use Rattle.search_core.specs.Core.{begun, IsReady};
ghost use Rattle.search_core.specs.Moves.{IsLowOf, IsBoxOf};
ghost use Rattle.search_core.specs.Nodes.{IsWork};
ghost use Rattle.search_core.specs.Kept.{IsKept};
ghost use Rattle.search_core.specs.Runs.{start, going_on};
ghost use Rattle.search_core.specs.Solo.{IsAlone, IsBegun, IsAllOffered, IsInformed, IsAdvanced};
ghost use Rattle.search_core.specs.Solver.{IsSolved, IsEndOf, IsSearched};

use crate::event::Stepped;
use crate::exclusion::{Exclusion, find_exclusion, gap_of};
use crate::guide::Guide;
use crate::node::Work;
use crate::open_path::{opened, paths_of};
use crate::plan::Plan;
use crate::solved::{Solved, best_value};
use crate::state::{State, is_count_above};
use cert_tree::{Record, assemble, most_left};
use lin_bound::{Mult, Path, Point, Problem, Region, bound, box_of};
use round_proposer::round_points;
use simplex_proposer::{Proposal, propose};
use std::alloc::{AllocError, Global};

/// What solves a problem exactly, or says what is left possible when the budget is spent.
pub trait Solver {
    /// A best point, or that none exists, or what is left possible once as many nodes as the budget are done.
    fn solve(&mut self, alloc: Global, problem: &Problem, budget: u32) -> Result<Solved, AllocError>
        requires { 1 ≤ budget }
        ensures solved { IfOk result (λ solved. IsSolved problem.now budget solved) }
        ensures err { OnErr result (self.new ≡ self.old) };
}

/// A search that one worker makes from start to end.
#[derive(Debug, Drop)]
pub struct SoloSolver;

impl Solver for SoloSolver {
    /// Branch and bound, from the whole box on.
    /// See Land and Doig, An automatic method of solving discrete programming problems, Econometrica 28 (1960).
    fn solve(&mut self, alloc: Global, problem: &Problem, budget: u32) -> Result<Solved, AllocError>
        requires { 1 ≤ budget }
        ensures solved { IfOk result (λ solved. IsSolved problem.now budget solved) }
        ensures searched { IfOk result (λ solved. IsSearched problem.now (start budget) solved) }
        ensures err { OnErr result (self.new ≡ self.old) }
    {
        let mut left = Vec::new(alloc);
        left.push(Path::new(alloc))?;
        go_on(alloc, problem, budget, Vec::new(alloc), left, None)
    }
}

/// Does what a search left, on the caller's thread: nodes already recorded count as done.
pub fn go_on(
    alloc: Global,
    problem: &Problem,
    budget: u32,
    records: Vec<Record>,
    left: Vec<Path>,
    best: Option<(i64, Point)>,
) -> Result<Solved, AllocError>
    requires budget { 1 ≤ budget }
    requires few { length records.items ≤ budget }
    requires balanced { IsBalanced records.items left.items }
    requires found { IsFound problem.now best }
    requires right { All (λ (done : RecordData).
        IsPlainlyRight problem.now (value_in best) None done.path done.act) records.items }
    requires legal { All (λ (done : RecordData). ActIsLegal problem.now done.act) records.items }
    ensures solved { IfOk result (λ solved. IsSolved problem.now budget solved) }
    ensures searched { IfOk result (λ solved. IsSearched problem.now
        (going_on budget records.items left.items best) solved) }
{
    let mut region = box_of(alloc, problem, &Path::new(alloc))?;
    let mut work = Work::new(alloc, problem)?;
    let mut guide = Guide::new(alloc, problem)?;
    let left = opened(alloc, left)?;
    let mut state = State::new(alloc, budget, records, left, best);
    while state.has_next() {
        do_next(
            alloc,
            problem,
            &mut state,
            &mut region,
            &mut guide,
            &mut work,
        )?;
    }
    finish(alloc, problem, state)
}

/// Takes an open path and does its node. Multipliers of a node before often close the box at once.
fn do_next(
    alloc: Global,
    problem: &Problem,
    state: &mut State,
    region: &mut Region,
    guide: &mut Guide,
    work: &mut Work,
) -> Result<(), AllocError>
    requires kept { IsKept problem.now state.old }
    requires region { IsRegion problem.now region.old }
    requires guide { IsMult problem.now guide.old.mult }
    requires work { IsWork problem.now work.old }
    requires idle { state.old.hands ≡ [] }
    requires room { begun state.old < state.old.budget }
    requires some { state.old.left ≢ [] }
    ensures advanced { IfOk result (λ _. IsAdvanced problem.now state.old state.new) }
    ensures region { IsRegion problem.now region.new }
    ensures guide { IsMult problem.now guide.new.mult }
    ensures work { IsWork problem.now work.new }
{
    begin(state)?;
    state.show_box(problem, 0, region);
    match state.close_at_once(alloc, problem, 0, &guide.mult, region)? {
        Stepped::Done => Ok(()),
        Stepped::NotEnabled => settle(alloc, problem, state, region, guide, work),
    }
}

/// Closes or splits the box in hand by a plan for it.
fn settle(
    alloc: Global,
    problem: &Problem,
    state: &mut State,
    region: &mut Region,
    guide: &mut Guide,
    work: &mut Work,
) -> Result<(), AllocError>
    requires kept { IsKept problem.now state.old }
    requires region { IsRegion problem.now region.old }
    requires guide { IsMult problem.now guide.old.mult }
    requires work { IsWork problem.now work.old }
    requires alone { IsAlone state.old }
    requires shown { IsBoxOf problem.now state.old 0 region.old }
    ensures advanced { IfOk result (λ _. IsAdvanced problem.now state.old state.new) }
    ensures region { IsRegion problem.now region.new }
    ensures guide { IsMult problem.now guide.new.mult }
    ensures work { IsWork problem.now work.new }
{
    let plan = next_plan(alloc, problem, region, guide, state)?;
    match state.handle(alloc, problem, 0, &plan, region, work)? {
        Stepped::Done => Ok(()),
        Stepped::NotEnabled => offer_and_close(alloc, problem, &plan, state, region, work),
    }
}

/// Takes an open path, and looks at the best value.
fn begin(state: &mut State) -> Result<(), AllocError>
    requires idle { state.old.hands ≡ [] }
    requires room { begun state.old < state.old.budget }
    requires some { state.old.left ≢ [] }
    ensures { IfOk result (λ _. IsBegun state.old state.new) }
{
    state.take_last(0)?;
    state.look(0);
    Ok(())
}

/// The plan to split at an exclusion: the half that is closed comes next.
fn excluding(mult: Mult, exclusion: Exclusion) -> Plan
    ensures { result.proposal.mult ≡ mult }
{
    Plan {
        proposal: Proposal {
            mult,
            var: exclusion.var,
            at: exclusion.at,
        },
        is_upper_next: exclusion.is_upper_closed,
    }
}

/// A plan for the box in hand: to exclude one more part of it by the multipliers of the node before, if that did the
/// same, or what is newly proposed. Then points near that are offered before.
fn next_plan(
    alloc: Global,
    problem: &Problem,
    region: &Region,
    guide: &mut Guide,
    state: &mut State,
) -> Result<Plan, AllocError>
    requires region { IsRegion problem.now region.now }
    requires guide { IsMult problem.now guide.old.mult }
    requires alone { IsAlone state.old }
    ensures plan { IfOk result (λ plan. IsMult problem.now plan.proposal.mult) }
    ensures informed { IfOk result (λ _. IsInformed problem.now state.old state.new) }
    ensures guide { IsMult problem.now guide.new.mult }
{
    let depth = state.depth(0);
    if guide.leads_at(depth) {
        let most = bound(problem, region, &guide.mult);
        let gap = gap_of(&guide.mult, most, state.best_value());
        if let Some(excluded) = find_exclusion(problem, region, &guide.mult, gap, depth) {
            guide.chain = Some(depth.saturating_add(1));
            return Ok(excluding(guide.mult.copy(alloc)?, excluded));
        }
    }
    new_plan(alloc, problem, region, guide, state)
}

/// A plan by a new proposal: to exclude a part of the box by its multipliers, or else what it says. Points near it are
/// offered before.
fn new_plan(
    alloc: Global,
    problem: &Problem,
    region: &Region,
    guide: &mut Guide,
    state: &mut State,
) -> Result<Plan, AllocError>
    requires region { IsRegion problem.now region.now }
    requires guide { IsMult problem.now guide.old.mult }
    requires alone { IsAlone state.old }
    ensures plan { IfOk result (λ plan. IsMult problem.now plan.proposal.mult) }
    ensures informed { IfOk result (λ _. IsInformed problem.now state.old state.new) }
    ensures guide { IsMult problem.now guide.new.mult }
{
    let proposal = propose(alloc, problem, region, &guide.mult)?;
    guide.remember(problem, &proposal.mult);
    let most = bound(problem, region, &proposal.mult);
    let is_upper_next = offer_some(alloc, problem, region, &proposal, most, guide, state)?;
    let gap = gap_of(&proposal.mult, most, state.best_value());
    let depth = state.depth(0);
    if let Some(excluded) = find_exclusion(problem, region, &proposal.mult, gap, depth) {
        guide.chain = Some(depth.saturating_add(1));
        return Ok(excluding(proposal.mult, excluded));
    }
    Ok(Plan {
        proposal,
        is_upper_next,
    })
}

/// Offers points near a proposal with this bound, unless it closes the box or nothing was found so for long. Answers
/// whether the first of them, or without any the best point so far, is in the upper half.
fn offer_some(
    alloc: Global,
    problem: &Problem,
    region: &Region,
    proposal: &Proposal,
    most: i128,
    guide: &mut Guide,
    state: &mut State,
) -> Result<bool, AllocError>
    requires region { IsRegion problem.now region.now }
    requires proposal { IsMult problem.now proposal.now.mult }
    requires alone { IsAlone state.old }
    ensures informed { IfOk result (λ _. IsInformed problem.now state.old state.new) }
    ensures guide { guide.new.mult ≡ guide.old.mult }
{
    let before = state.best_value();
    if let Some(gap) = gap_of(&proposal.mult, most, before) {
        if gap < 0 || !guide.wants_points() {
            return Ok(state.is_best_above(proposal.var, proposal.at));
        }
    }
    let is_upper_next = offer_near(alloc, problem, region, proposal, state)?;
    if state.best_value() != before {
        guide.fruitless = 0;
    }
    Ok(is_upper_next)
}

/// Whether the first point is in the upper half at the place proposed, or there is none.
fn is_in_upper(points: &[Point], proposal: &Proposal) -> bool {
    match points.first() {
        Some(point) => is_count_above(point, proposal.var, proposal.at),
        None => true,
    }
}

/// Offers points of the box in hand near the one that the multipliers prefer, and looks at the best value again.
/// Answers whether the first of them is in the upper half at the place proposed.
fn offer_near(
    alloc: Global,
    problem: &Problem,
    region: &Region,
    proposal: &Proposal,
    state: &mut State,
) -> Result<bool, AllocError>
    requires region { IsRegion problem.now region.now }
    requires proposal { IsMult problem.now proposal.now.mult }
    requires alone { IsAlone state.old }
    ensures { IfOk result (λ _. IsInformed problem.now state.old state.new) }
{
    let points = round_points(alloc, problem, region, &proposal.mult)?;
    let is_upper_next = is_in_upper(&points, proposal);
    offer_each(problem, points, state);
    state.look(0);
    Ok(is_upper_next)
}

/// Offers each of the points.
fn offer_each(problem: &Problem, points: Vec<Point>, state: &mut State)
    ensures { IsAllOffered problem.now state.old state.new }
{
    for point in points {
        state.offer(problem, point);
    }
}

/// Offers the one point of the box in hand, which is a better one and is in the work, and closes the box.
fn offer_and_close(
    alloc: Global,
    problem: &Problem,
    plan: &Plan,
    state: &mut State,
    region: &mut Region,
    work: &mut Work,
) -> Result<(), AllocError>
    requires kept { IsKept problem.now state.old }
    requires plan { IsMult problem.now plan.now.proposal.mult }
    requires region { IsRegion problem.now region.old }
    requires work { IsWork problem.now work.old }
    requires alone { IsAlone state.old }
    requires stuck { ¬ IsReady problem.now state.old 0 plan.now.proposal }
    requires point { IsLowOf problem.now state.old 0 work.old.point }
    ensures advanced { IfOk result (λ _. IsAdvanced problem.now state.old state.new) }
    ensures region { IsRegion problem.now region.new }
    ensures work { IsWork problem.now work.new }
{
    let _legal = problem.variables();
    let point = work.point.copy(alloc)?;
    state.offer(problem, point);
    state.look(0);
    state.show_box(problem, 0, region);
    state.handle(alloc, problem, 0, plan, region, work)?;
    Ok(())
}

/// The answer of a search that has nothing more to do, or no more budget.
fn finish(alloc: Global, problem: &Problem, state: State) -> Result<Solved, AllocError>
    requires kept { IsKept problem.now state }
    requires idle { state.hands ≡ [] }
    requires end { state.left ≢ [] → state.budget ≤ begun state }
    ensures solved { IfOk result (λ solved. IsSolved problem.now state.budget solved) }
    ensures ended { IfOk result (λ solved. IsEndOf state solved) }
{
    let (records, left, best) = state.into_parts();
    let left = paths_of(alloc, left)?;
    let is_whole = is_none(&left);
    let tree = assemble(alloc, records, left)?;
    if !is_whole {
        let bound = most_left(alloc, problem, &tree, best_value(&best))?;
        return Ok(Solved::Undecided { best, bound, tree });
    }
    match best {
        Some((value, point)) => Ok(Solved::Best { value, point, tree }),
        None => Ok(Solved::NoneExists { tree }),
    }
}

/// Whether no path is open.
fn is_none(left: &[Path]) -> bool
    ensures { MatchBool result (left.now ≡ []) (left.now ≢ []) }
{
    left.is_empty()
}

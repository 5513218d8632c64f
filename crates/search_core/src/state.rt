//! How far a search is, and each row of the table of its events.
ghost use Rattle.std.specs.Prelude.{◌≡◌, ◌≢◌, [], ◌<◌, ◌≤◌, ◌↔◌, IsTrue, length, IfOk, OnErr, MatchOption};
ghost use Rattle.std.specs.Prelude.{MatchBool, Contains, slice_get, Some};
ghost use Rattle.lin_bound.specs.Problem.{IsFeasible};
ghost use Rattle.lin_bound.specs.Box.{IsRegion};
ghost use Rattle.lin_bound.specs.Bound.{IsMult};
ghost use Rattle.search_core.specs.declared.event.Stepped.TheVariants.{NotEnabled};
ghost use Rattle.search_core.specs.Nodes.{IsAbove, IsWork};
ghost use Rattle.search_core.specs.Core.{begun, IsBusy, IsHeldAt, IsReady, Outcome};
ghost use Rattle.search_core.specs.Core.{IsTaken, IsLooked, IsOffered, IsRecorded, IsDropped};
ghost use Rattle.search_core.specs.Kept.{IsKept};
ghost use Rattle.search_core.specs.Runs.{going_on};
ghost use Rattle.search_core.specs.Moves.{IsLastTaken, IsClosing, IsSplitting, IsLowOf, IsBoxOf};
ghost use Rattle.search_core.specs.Moves.{ClosesAtOnce, without_place};
ghost use Rattle.search_core.specs.Search.{value_in};

use crate::boxes::move_to;
use crate::event::{Hand, Seen, Stepped};
use crate::node::{Handled, Work, handle_node};
use crate::open_path::OpenPath;
use crate::plan::Plan;
use crate::solved::best_value;
use cert_tree::{Act, Record};
use lin_bound::{Mult, Path, Point, Problem, Region, closes};
use std::alloc::{AllocError, Global};
use std::marker::Model;

/// The open paths, the nodes in hand, the best point offered, what was recorded, and how many nodes may be.
#[derive(Debug, Drop)]
pub struct State {
    budget: u32,
    left: Vec<OpenPath>,
    hands: Vec<Hand>,
    best: Option<(i64, Point)>,
    records: Vec<Record>,
}

impl Model for State {
    ghost use Rattle.search_core.specs.Core.{CoreState};

    ghost Value = { CoreState };

    ghost view = { λ state. record {
      budget = state.budget;
      left = state.left.items;
      hands = state.hands.items;
      best = state.best;
      records = state.records.items;
    } };
}

/// Where a path is among the open ones: the last place, since a search goes on where it last was.
fn place_of_path(left: &[OpenPath], path: &Path) -> Option<usize>
    ensures { MatchOption result (¬ Contains left.now path.now)
        (λ place. slice_get left.now place ≡ Some path.now) }
{
    let mut place = left.len();
    while place > 0 {
        place -= 1;
        if left[place].path().is_same(path) {
            return Some(place);
        }
    }
    None
}

/// Where the node of a worker is among those in hand.
fn place_of_hand(hands: &[Hand], worker: u32) -> Option<usize>
    ensures { MatchOption result (¬ IsBusy hands.now worker)
        (λ place. IsHeldAt hands.now worker place) }
{
    for place in 0..hands.len() {
        if hands[place].worker == worker {
            return Some(place);
        }
    }
    None
}

/// Whether the value is above the best so far.
fn is_above(value: i64, best: Option<i64>) -> bool
    ensures { IsTrue result ↔ IsAbove value best }
{
    match best {
        Some(best) => value > best,
        None => true,
    }
}

/// Whether the point has more than so many of a variable.
pub fn is_count_above(point: &Point, variable: u32, at: u64) -> bool {
    let count = point.counts().get(variable as usize).copied();
    count.unwrap_or(0) > at
}

/// The halves of a box, in the order in which they are opened: the last one is taken next.
fn in_turn(lower: Path, upper: Path, is_upper_next: bool) -> (Path, Path)
    ensures { MatchBool is_upper_next ((result.0 ≡ lower) × (result.1 ≡ upper))
        ((result.0 ≡ upper) × (result.1 ≡ lower)) }
{
    if is_upper_next {
        (lower, upper)
    } else {
        (upper, lower)
    }
}

impl State {
    /// A search with these records and open paths, and no node in hand.
    pub fn new(
        alloc: Global,
        budget: u32,
        records: Vec<Record>,
        left: Vec<OpenPath>,
        best: Option<(i64, Point)>,
    ) -> State
        ensures { result ≡ going_on budget records.items left.items best }
    {
        State {
            budget,
            left,
            hands: Vec::new(alloc),
            best,
            records,
        }
    }

    /// Whether as many nodes were begun as may be.
    pub fn is_spent(&self) -> bool
        ensures { IsTrue result ↔ (self.now.budget ≤ begun self.now) }
    {
        let room = (self.budget as usize).saturating_sub(self.records.len());
        room <= self.hands.len()
    }

    /// Whether a path is open and a node may be begun.
    pub fn has_next(&self) -> bool
        ensures { MatchBool result ((self.now.left ≢ []) × (begun self.now < self.now.budget))
            (self.now.left ≢ [] → self.now.budget ≤ begun self.now) }
    {
        !self.left.is_empty() && !self.is_spent()
    }

    /// The cost of the best point so far.
    pub fn best_value(&self) -> Option<i64>
        ensures { result ≡ value_in self.now.best }
    {
        best_value(&self.best)
    }

    /// Whether the best point so far has more than so many of a variable, or there is no point.
    pub fn is_best_above(&self, variable: u32, at: u64) -> bool {
        match &self.best {
            Some((_, point)) => is_count_above(point, variable, at),
            None => true,
        }
    }

    /// How long the path of a worker's node is, and 0 if it has none.
    pub fn depth(&self, worker: u32) -> usize {
        match place_of_hand(&self.hands, worker) {
            Some(place) => self.hands[place].path.path().len(),
            None => 0,
        }
    }

    /// What was recorded, the open paths, and the best point offered.
    pub fn into_parts(self) -> (Vec<Record>, Vec<OpenPath>, Option<(i64, Point)>)
        ensures records { result.0.items ≡ self.records }
        ensures left { result.1.items ≡ self.left }
        ensures best { result.2 ≡ self.best }
    {
        (self.records, self.left, self.best)
    }

    /// A worker takes the path that was opened last.
    pub fn take_last(&mut self, worker: u32) -> Result<(), AllocError>
        requires { self.old.left ≢ [] }
        ensures ok { IfOk result (λ _. IsLastTaken self.old worker self.new) }
        ensures err { OnErr result (self.new ≡ self.old) }
    {
        self.hands.reserve(1)?;
        let Some(path) = self.left.pop() else {
            return Ok(());
        };
        let seen = Seen::NotLooked;
        self.hands.push_reserved(Hand { worker, path, seen });
        Ok(())
    }

    /// A worker takes an open path.
    pub fn take(&mut self, worker: u32, path: Path) -> Result<Stepped, AllocError>
        ensures ok { IfOk result (λ outcome. Outcome
            (Contains self.old.left path × (¬ IsBusy self.old.hands worker)
            × (begun self.old < self.old.budget))
            (IsTaken self.old worker path self.new) (self.new ≡ self.old) outcome) }
        ensures err { OnErr result (self.new ≡ self.old) }
    {
        if self.is_spent() {
            return Ok(Stepped::NotEnabled);
        }
        let None = place_of_hand(&self.hands, worker) else {
            return Ok(Stepped::NotEnabled);
        };
        let Some(place) = place_of_path(&self.left, &path) else {
            return Ok(Stepped::NotEnabled);
        };
        let seen = Seen::NotLooked;
        self.hands.reserve(1)?;
        let path = self.left.remove(place);
        self.hands.push_reserved(Hand { worker, path, seen });
        Ok(Stepped::Done)
    }

    /// A worker looks at the best value for its node.
    pub fn look(&mut self, worker: u32) -> Stepped
        ensures { Outcome (IsBusy self.old.hands worker) (IsLooked self.old worker self.new)
            (self.new ≡ self.old) result }
    {
        let Some(place) = place_of_hand(&self.hands, worker) else {
            return Stepped::NotEnabled;
        };
        self.hands[place].seen = Seen::Looked(best_value(&self.best));
        Stepped::Done
    }

    /// A point is offered.
    pub fn offer(&mut self, problem: &Problem, point: Point) -> Stepped
        ensures { Outcome (IsFeasible problem.now point)
            (IsOffered problem.now self.old point self.new) (self.new ≡ self.old) result }
    {
        if !problem.is_feasible(&point) {
            return Stepped::NotEnabled;
        }
        let value = problem.cost_of(&point);
        if is_above(value, best_value(&self.best)) {
            self.best = Some((value, point));
        }
        Stepped::Done
    }

    /// A worker gives its node back.
    pub fn give_back(&mut self, worker: u32) -> Result<Stepped, AllocError>
        ensures ok { IfOk result (λ outcome. Outcome (IsBusy self.old.hands worker)
            (IsDropped self.old worker self.new) (self.new ≡ self.old) outcome) }
        ensures err { OnErr result (self.new ≡ self.old) }
    {
        let Some(place) = place_of_hand(&self.hands, worker) else {
            return Ok(Stepped::NotEnabled);
        };
        self.left.reserve(1)?;
        let hand = self.hands.remove(place);
        self.left.push_reserved(hand.path);
        Ok(Stepped::Done)
    }

    /// Records that the multipliers close the box of the node in hand at a place.
    fn close(&mut self, alloc: Global, place: usize, mult: &Mult) -> Result<(), AllocError>
        requires { place < length self.old.hands }
        ensures ok { IfOk result (λ _. IsClosing self.old place mult.now self.new) }
        ensures err { OnErr result (self.new ≡ self.old) }
    {
        let mult = mult.copy(alloc)?;
        self.records.reserve(1)?;
        let path = self.hands.remove(place).path.into_path();
        let act = Act::Closed(mult);
        self.records.push_reserved(Record { path, act });
        Ok(())
    }

    /// Records that the box of the node in hand at a place is split; both children are open.
    fn split(
        &mut self,
        alloc: Global,
        place: usize,
        var: u32,
        at: u64,
        mult: &Mult,
        is_upper_next: bool,
    ) -> Result<(), AllocError>
        requires { place < length self.old.hands }
        ensures ok { IfOk result (λ _.
            IsSplitting self.old place var at mult.now is_upper_next self.new) }
        ensures err { OnErr result (self.new ≡ self.old) }
    {
        let (lower, upper) = self.hands[place].path.path().halves(alloc, var, at)?;
        let (first, last) = in_turn(lower, upper, is_upper_next);
        let mult = mult.copy(alloc)?;
        self.left.reserve(2)?;
        self.records.reserve(1)?;
        let path = self.hands.remove(place).path.into_path();
        let parent = Some(self.records.len());
        self.left.push_reserved(OpenPath::new(first, parent));
        self.left.push_reserved(OpenPath::new(last, parent));
        let act = Act::Split { var, at, mult };
        self.records.push_reserved(Record { path, act });
        Ok(())
    }

    /// Makes the region the box of a worker's node, if it has one.
    pub fn show_box(&self, problem: &Problem, worker: u32, region: &mut Region)
        requires kept { IsKept problem.now self.now }
        requires region { IsRegion problem.now region.old }
        ensures shown { IsBoxOf problem.now self.now worker region.new }
        ensures region { IsRegion problem.now region.new }
    {
        let Some(place) = place_of_hand(&self.hands, worker) else {
            return;
        };
        let hand = &self.hands[place];
        move_to(problem, hand.path.path(), region);
    }

    /// A worker closes the box of its node, if these multipliers do so.
    pub fn close_at_once(
        &mut self,
        alloc: Global,
        problem: &Problem,
        worker: u32,
        mult: &Mult,
        region: &Region,
    ) -> Result<Stepped, AllocError>
        requires kept { IsKept problem.now self.old }
        requires mult { IsMult problem.now mult.now }
        requires region { IsRegion problem.now region.now }
        requires shown { IsBoxOf problem.now self.old worker region.now }
        ensures ok { IfOk result (λ outcome. Outcome
            (ClosesAtOnce problem.now self.old worker mult.now)
            (IsRecorded problem.now self.old worker (without_place mult.now) self.new)
            (self.new ≡ self.old) outcome) }
        ensures err { OnErr result (self.new ≡ self.old) }
    {
        let Some(place) = place_of_hand(&self.hands, worker) else {
            return Ok(Stepped::NotEnabled);
        };
        let hand = &self.hands[place];
        let Seen::Looked(seen) = hand.seen else {
            return Ok(Stepped::NotEnabled);
        };
        if !closes(problem, region, mult, seen) {
            return Ok(Stepped::NotEnabled);
        }
        self.close(alloc, place, mult)?;
        Ok(Stepped::Done)
    }

    /// A worker closes or splits the box of its node. If its one point is a better one, that is in the work.
    pub fn handle(
        &mut self,
        alloc: Global,
        problem: &Problem,
        worker: u32,
        plan: &Plan,
        region: &Region,
        work: &mut Work,
    ) -> Result<Stepped, AllocError>
        requires kept { IsKept problem.now self.old }
        requires plan { IsMult problem.now plan.now.proposal.mult }
        requires region { IsRegion problem.now region.now }
        requires shown { IsBoxOf problem.now self.old worker region.now }
        requires work { IsWork problem.now work.old }
        ensures ok { IfOk result (λ outcome. Outcome
            (IsReady problem.now self.old worker plan.now.proposal)
            (IsRecorded problem.now self.old worker plan.now.proposal self.new)
            (self.new ≡ self.old) outcome) }
        ensures point { IfOk result (λ outcome. outcome ≡ NotEnabled →
            IsLowOf problem.now self.old worker work.new.point) }
        ensures err { OnErr result (self.new ≡ self.old) }
        ensures work { IsWork problem.now work.new }
    {
        let Some(place) = place_of_hand(&self.hands, worker) else {
            return Ok(Stepped::NotEnabled);
        };
        let hand = &self.hands[place];
        let Seen::Looked(seen) = hand.seen else {
            return Ok(Stepped::NotEnabled);
        };
        match handle_node(problem, region, seen, &plan.proposal, work) {
            Handled::Better => return Ok(Stepped::NotEnabled),
            Handled::Closed => self.close(alloc, place, &work.mult)?,
            Handled::Split { var, at } => {
                self.split(alloc, place, var, at, &work.mult, plan.is_upper_next)?;
            }
        }
        Ok(Stepped::Done)
    }
}

//! The core of the search: a machine that performs the events of any number of workers, in any order.
ghost use Rattle.std.specs.Prelude.{◌≡◌, IfOk, OnErr};
ghost use Rattle.lin_bound.specs.Box.{IsRegion};
ghost use Rattle.search_core.specs.Core.{Fits, Steps};
ghost use Rattle.search_core.specs.Kept.{IsKept};
ghost use Rattle.search_core.specs.Nodes.{IsWork};
ghost use Rattle.search_core.specs.Runs.{start};

use crate::event::{Event, Stepped};
use crate::node::Work;
use crate::open_path::OpenPath;
use crate::plan::Plan;
use crate::state::State;
use lin_bound::{Path, Problem, Region, box_of};
use std::alloc::{AllocError, Global};
use std::marker::Model;

/// A problem, and how far its search is. What holds of it after any list of events is its invariant.
#[derive(Debug, Drop)]
pub struct Core {
    problem: Problem,
    state: State,
    region: Region,
    work: Work,
}

impl Model for Core {
    ghost use Rattle.search_core.specs.Runs.{CoreData};
    ghost use Rattle.search_core.specs.Kept.{IsKept};
    ghost use Rattle.search_core.specs.Nodes.{IsWork};
    ghost use Rattle.lin_bound.specs.Box.{IsRegion};

    ghost Value = { CoreData };

    ghost view = { λ core. record { problem = core.problem; state = core.state } };

    ghost invariant = { λ core. IsKept core.problem core.state × IsWork core.problem core.work
        × IsRegion core.problem core.region };
}

impl Core {
    /// A search that has done nothing yet: the path of the whole box is open. No more nodes than the budget are begun.
    pub fn new(alloc: Global, problem: Problem, budget: u32) -> Result<Core, AllocError>
        ensures { IfOk result (λ core. core ≡ record { problem = problem; state = start budget }) }
    {
        let mut left = Vec::new(alloc);
        left.push(OpenPath::new(Path::new(alloc), None))?;
        let region = box_of(alloc, &problem, &Path::new(alloc))?;
        let work = Work::new(alloc, &problem)?;
        let state = State::new(alloc, budget, Vec::new(alloc), left, None);
        Ok(Core {
            problem,
            state,
            region,
            work,
        })
    }

    /// Performs one event where it is enabled. Where it isn't, and where memory runs out, nothing changes.
    pub fn step(&mut self, alloc: Global, event: Event) -> Result<Stepped, AllocError>
        requires { Fits self.old.problem event }
        ensures steps { IfOk result (λ outcome.
            Steps self.old.problem self.old.state event outcome self.new.state) }
        ensures problem { self.new.problem ≡ self.old.problem }
        ensures kept { IsKept self.new.problem self.new.state }
        ensures err { OnErr result (self.new ≡ self.old) }
    {
        let Core {
            problem,
            state,
            region,
            work,
        } = self;
        perform(alloc, problem, state, region, work, event)
    }
}

/// Performs one event of a search.
fn perform(
    alloc: Global,
    problem: &Problem,
    state: &mut State,
    region: &mut Region,
    work: &mut Work,
    event: Event,
) -> Result<Stepped, AllocError>
    requires kept { IsKept problem.now state.old }
    requires region { IsRegion problem.now region.old }
    requires work { IsWork problem.now work.old }
    requires fits { Fits problem.now event }
    ensures steps { IfOk result (λ outcome. Steps problem.now state.old event outcome state.new) }
    ensures err { OnErr result (state.new ≡ state.old) }
    ensures region { IsRegion problem.now region.new }
    ensures work { IsWork problem.now work.new }
{
    match event {
        Event::Take { worker, path } => state.take(worker, path),
        Event::Look { worker } => Ok(state.look(worker)),
        Event::Handle { worker, proposal } => {
            let plan = Plan {
                proposal,
                is_upper_next: false,
            };
            state.show_box(problem, worker, region);
            state.handle(alloc, problem, worker, &plan, region, work)
        }
        Event::Offer { worker: _, point } => Ok(state.offer(problem, point)),
        Event::Drop { worker } => state.give_back(worker),
    }
}

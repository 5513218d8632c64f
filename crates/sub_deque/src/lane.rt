//! The two ends of a lane.
ghost use Rattle.std.specs.Prelude.{◌≡◌, ◌<◌, ◌++◌, ◌∷◌, [], ◌⊎◌, IfOk, MatchOption, MatchResult};
ghost use Rattle.sub_deque.specs.Views.{owner_view, thief_view};
ghost use Rattle.sub_deque.specs.Rule.{IsAccount, Moment};
ghost use Rattle.sub_deque.specs.Handles.{owner_end};
ghost use Rattle.sub_deque.specs.Answers.{MatchStolen};

use crate::view::{Ends, LaneRule, LaneView, Pops, Pushes, Steals};
use crossbeam_deque::{Pass, Steal, Stealer, Worker};
use lin_bound::Path;
use std::alloc::{AllocError, Global};
use std::marker::Model;

/// How many paths a lane has room for at first. It grows as it needs to.
const FIRST_ROOM: usize = 64;

/// A lane, from which its two ends are made.
pub struct Lane;

/// The end that pushes and pops at the back of a lane. One thread has it.
#[derive(Drop)]
pub struct LaneOwner {
    worker: Worker<Path, Global, LaneView, LaneRule>,
}

impl Model for LaneOwner {
    ghost use Rattle.std.specs.Prelude.{◌≡◌};
    ghost use Rattle.crossbeam_deque.specs.Handles.{worker_deque, worker_flavor, worker_view};
    ghost use Rattle.sub_deque.specs.Views.{owner_view};
    ghost use Rattle.sub_deque.specs.Handles.{OwnerEnd, owner_end};

    ghost Value = { OwnerEnd };

    ghost view = { λ o. owner_end (worker_deque o.worker)
        (worker_view o.worker).put (worker_view o.worker).popped };

    ghost invariant = { λ o. (worker_flavor o.worker ≡ 1)
        × (worker_view o.worker
        ≡ owner_view (worker_view o.worker).put (worker_view o.worker).popped) };
}

/// The end that steals at the front of a lane. One thread has it, mostly not the owner's.
#[derive(Drop)]
pub struct LaneThief {
    stealer: Stealer<Path, Global, LaneView, LaneRule>,
    pass: Pass<Path, LaneView>,
}

impl Model for LaneThief {
    ghost use Rattle.std.specs.Prelude.{◌≡◌};
    ghost use Rattle.crossbeam_deque.specs.Handles.{IsPassOf, stealer_deque, stealer_flavor};
    ghost use Rattle.crossbeam_deque.specs.Handles.{view as view_of, taken as taken_by};
    ghost use Rattle.sub_deque.specs.Views.{thief_view};
    ghost use Rattle.sub_deque.specs.Handles.{ThiefEnd, thief_end};

    ghost Value = { ThiefEnd };

    ghost view = { λ t. thief_end (stealer_deque t.stealer)
        (view_of t.pass).stolen (taken_by t.pass) };

    ghost invariant = { λ t. (stealer_flavor t.stealer ≡ 1)
        × IsPassOf (stealer_deque t.stealer) t.pass
        × (view_of t.pass ≡ thief_view (view_of t.pass).stolen) };
}

/// What a steal gives.
#[derive(Debug, Drop)]
pub enum Stolen {
    Got(Path),
    /// At a moment of the call at most one path was in the lane; the owner may have been popping it.
    Empty,
    /// The same, or paths left the lane since the thief looked last.
    Retry,
}

impl Lane {
    /// The two ends of a new lane, in which no path is.
    #[tactic(auto, using(crate::proofs::Accounts::begins, crate::proofs::Accounts::splits))]
    pub fn new(alloc: Global) -> Result<(LaneOwner, LaneThief), AllocError>
        ensures owner { IfOk result (λ ends. ends.0 ≡ owner_end ends.0.lane [] []) }
        ensures thief { IfOk result (λ ends. (ends.1.lane ≡ ends.0.lane) × (ends.1.stolen ≡ [])) }
    {
        let mut worker = Worker::<Path, Global, LaneView, LaneRule>::lifo_as(alloc, FIRST_ROOM)?;
        let stealer = worker.stealer()?;
        let pass = worker.another::<Ends>();
        Ok((LaneOwner { worker }, LaneThief { stealer, pass }))
    }
}

impl LaneOwner {
    /// Puts a path last. It comes back if there is no memory for it, or the lane is at its greatest
    /// size.
    pub fn push(&mut self, node: Path) -> Result<(), (Path, AllocError)>
        ensures { MatchResult result
            (λ _. self.new ≡ owner_end self.old.lane (self.old.put ++ node ∷ []) self.old.popped)
            (λ refused. (refused.0 ≡ node) × (self.new ≡ self.old)) }
    {
        match self.worker.push_as::<Pushes>(node) {
            Ok(()) => Ok(()),
            Err(node) => Err((node, AllocError)),
        }
    }

    /// Takes the last path. None comes only if the lane was empty at a moment of the call.
    pub fn pop(&mut self) -> Option<Path>
        ensures { MatchOption result
            ((self.new ≡ self.old) × Moment 0 (owner_view self.old.put self.old.popped))
            (λ path. self.new
            ≡ owner_end self.old.lane self.old.put (self.old.popped ++ path ∷ [])) }
    {
        self.worker.pop_as::<Pops>()
    }
}

impl LaneThief {
    /// Takes the first path.
    pub fn steal(&mut self) -> Stolen
        ensures lane { self.new.lane ≡ self.old.lane }
        ensures rule { MatchStolen result
            (λ path. self.new.stolen ≡ self.old.stolen ++ path ∷ [])
            ((self.new.stolen ≡ self.old.stolen) × Moment 1 (thief_view self.old.stolen))
            ((self.new.stolen ≡ self.old.stolen)
            × ((self.old.taken < self.new.taken) ⊎ Moment 1 (thief_view self.old.stolen))) }
    {
        match self.stealer.steal_as::<Steals>(&mut self.pass) {
            Steal::Success(path) => Stolen::Got(path),
            Steal::Empty => Stolen::Empty,
            Steal::Retry => Stolen::Retry,
        }
    }
}

/// What is left in a lane once both its ends are here. After a refusal the lane is gone, with what was
/// left in it.
pub fn drain_joined(
    alloc: Global,
    owner: LaneOwner,
    thief: LaneThief,
) -> Result<Vec<Path>, AllocError>
    requires { thief.lane ≡ owner.lane }
    ensures { IfOk result (λ left. IsAccount owner.put owner.popped thief.stolen left.items) }
{
    let LaneOwner { mut worker } = owner;
    let LaneThief { stealer: _, pass } = thief;
    worker.absorb::<Ends>(pass);
    let mut left = Vec::new(alloc);
    for _ in 0..u64::MAX {
        left.reserve(1)?;
        let Some(path) = worker.pop_as::<Pops>() else {
            return Ok(left);
        };
        left.push_reserved(path);
    }
    Err(AllocError)
}

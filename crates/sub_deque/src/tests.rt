//! What the two ends of a lane answer, and two threads at one lane.
ghost use Rattle.std.specs.Prelude.{◌≡◌, IfOk, IfSome};
ghost use Rattle.search_board.specs.Values.{IsSmall};

use super::trial::{Judge, Station, node};
use super::*;
use lin_bound::{Branch, Path};
use search_board::{Board, BoardSeat};
use std::alloc::{AllocError, Global};
use std::test::*;
use std::thread::{Threads, join};

/// A path of one branch, known by its number.
fn path(alloc: Global, number: u64) -> Result<Path, AllocError> {
    let at = number;
    Path::new(alloc).child(
        alloc,
        Branch {
            at,
            var: 0,
            high: false,
        },
    )
}

/// The number of such a path.
fn number(path: &Path) -> Option<u64> {
    if path.len() == 1 {
        Some(path.branch(0).at)
    } else {
        None
    }
}

fn numbers(alloc: Global, paths: &[Path], into: &mut Vec<u64>) -> Result<(), AllocError> {
    for path in paths.iter() {
        into.push(number(path).unwrap_or(u64::MAX))?;
    }
    Ok(())
}

/// Pushes the path of this number, or says that there is no memory.
fn push(alloc: Global, owner: &mut LaneOwner, at: u64) -> Result<(), AllocError>
    ensures { owner.new.lane ≡ owner.old.lane }
{
    match owner.push(path(alloc, at)?) {
        Ok(()) => Ok(()),
        Err((_path, error)) => Err(error),
    }
}

#[test]
fn the_last_is_popped_and_the_first_stolen(rt: HostRuntime) -> Result<(), Fail> {
    let (mut owner, mut thief) = Lane::new(rt.alloc())?;
    push(rt.alloc(), &mut owner, 1)?;
    push(rt.alloc(), &mut owner, 2)?;
    assert_eq!(rt; owner.pop().as_ref().and_then(number), Some(2));
    let stolen = match thief.steal() {
        Stolen::Got(path) => number(&path),
        _ => None,
    };
    assert_eq!(rt; stolen, Some(1));
    assert!(rt; owner.pop().is_none());
    assert!(rt; matches!(thief.steal(), Stolen::Empty));
    push(rt.alloc(), &mut owner, 3)?;
    push(rt.alloc(), &mut owner, 4)?;
    let left = drain_joined(rt.alloc(), owner, thief)?;
    assert_eq!(rt; left.len(), 2);
    Ok(())
}

/// Pushes a thousand paths, and pops after every third push.
fn push_all(
    alloc: Global,
    mut owner: LaneOwner,
    mut popped: Vec<Path>,
) -> Result<(LaneOwner, Vec<Path>), AllocError>
    ensures { IfOk result (λ r. r.0.lane ≡ owner.lane) }
{
    for at in 0..1000u64 {
        push(alloc, &mut owner, at)?;
        if at % 3 == 2 {
            if let Some(path) = owner.pop() {
                popped.push(path)?;
            }
        }
    }
    Ok((owner, popped))
}

/// Steals a thousand times.
fn steal_all(
    mut thief: LaneThief,
    mut stolen: Vec<Path>,
) -> Result<(LaneThief, Vec<Path>), AllocError>
    ensures { IfOk result (λ r. r.0.lane ≡ thief.lane) }
{
    for _ in 0..1000u32 {
        if let Stolen::Got(path) = thief.steal() {
            stolen.push(path)?;
        }
    }
    Ok((thief, stolen))
}

/// The numbers of all paths, in order: those that one thread popped, those that another stole, and the
/// rest.
fn taken_by_two<R: Threads + Sync>(rt: &R, alloc: Global) -> Result<Vec<u64>, AllocError> {
    let (owner, thief) = Lane::new(alloc)?;
    let popped = Vec::new(alloc);
    let stolen = Vec::new(alloc);
    let (owned, robbed) = join(
        rt,
        move || -> Result<(LaneOwner, Vec<Path>), AllocError>
            ensures { IfOk result (λ r. r.0.lane ≡ owner.lane) }
        { push_all(alloc, owner, popped) },
        move || -> Result<(LaneThief, Vec<Path>), AllocError>
            ensures { IfOk result (λ r. r.0.lane ≡ thief.lane) }
        { steal_all(thief, stolen) },
    );
    let (owner, popped) = owned?;
    let (thief, stolen) = robbed?;
    let left = drain_joined(alloc, owner, thief)?;
    let mut all = Vec::new(alloc);
    numbers(alloc, popped.as_slice(), &mut all)?;
    numbers(alloc, stolen.as_slice(), &mut all)?;
    numbers(alloc, left.as_slice(), &mut all)?;
    all.sort_unstable();
    Ok(all)
}

#[test]
fn two_threads_take_each_path_once(rt: HostRuntime) -> Result<(), Fail> {
    let all = taken_by_two(&rt, rt.alloc())?;
    assert_eq!(rt; all.len(), 1000);
    for index in 0..1000u64 {
        assert_eq!(rt; all.get(index as usize).copied(), Some(index));
    }
    Ok(())
}

/// Splits every box of fewer than three branches, and knows a value for each box.
struct ThreeDeep;

impl Judge for ThreeDeep {
    fn value(&self, path: &Path) -> Option<i64>
        ensures { IfSome result (λ value. IsSmall value) }
    {
        if path.len() < 3 { Some(1) } else { Some(2) }
    }

    fn cut(&self, path: &Path, _seen: Option<i64>) -> Option<(u32, u64)> {
        if path.len() < 3 { Some((0, 7)) } else { None }
    }
}

fn take_turns(
    alloc: Global,
    board: &Board,
    seat: &mut BoardSeat,
    station: &mut Station,
    turns: u32,
) -> Result<(), AllocError>
    requires { seat.old.board ≡ board.now }
    ensures { seat.new.board ≡ board.now }
{
    for _ in 0..turns {
        node(alloc, board, seat, station, &ThreeDeep)?;
    }
    Ok(())
}

/// How many nodes one thread does in so many turns, what it keeps then, and what the board says.
fn done_alone(
    alloc: Global,
    budget: u32,
    turns: u32,
) -> Result<(usize, usize, Option<i64>), AllocError> {
    let (board, mut seat) = Board::new(alloc, budget)?;
    let (owner, _own_thief) = Lane::new(alloc)?;
    let (_other_owner, thief) = Lane::new(alloc)?;
    let mut left = Vec::new(alloc);
    left.push(Path::new(alloc))?;
    let mut station = Station {
        done: Vec::new(alloc),
        left,
        owner,
        thief,
    };
    take_turns(alloc, &board, &mut seat, &mut station, turns)?;
    let best = board.look(&mut seat);
    Ok((station.done.len(), station.left.len(), best))
}

#[test]
fn one_thread_does_all_nodes(rt: HostRuntime) -> Result<(), Fail> {
    assert_eq!(rt; done_alone(rt.alloc(), 100, 40)?, (15, 0, Some(2)));
    assert_eq!(rt; done_alone(rt.alloc(), 6, 6)?, (6, 0, Some(2)));
    assert_eq!(rt; done_alone(rt.alloc(), 0, 1)?, (0, 1, Some(1)));
    Ok(())
}

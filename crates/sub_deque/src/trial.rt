//! A trial of the contracts: what one thread of a search does with one node, from a seat at a board, the
//! owner's end of its lane and the thief's end of another. What comes in is what goes out, and as many
//! nodes are done as were drawn.
ghost use Rattle.std.specs.Prelude.{◌≡◌, ◌≤◌, ◌<◌, ◌+◌, ◌∷◌, [], length, vec_len, vec_capacity, OnOk, Some};
ghost use Rattle.std.specs.Prelude.{IfSome, MatchOption};
ghost use Rattle.search_board.specs.Values.{IsSmall};
ghost use Rattle.sub_deque.specs.Stations.{station, children_at, IsAccounted, IsTaken, IsPlaced};

use crate::{LaneOwner, LaneThief, Stolen};
use lin_bound::Path;
use search_board::{Board, BoardSeat};
use std::alloc::{AllocError, Global};

/// What is to be done at a node.
pub(crate) trait Judge {
    /// The value of a point in its box, if one is known.
    fn value(&self, path: &Path) -> Option<i64>
        ensures { IfSome result (λ value. IsSmall value) };

    /// Where its box is split, unless it is closed for the best value seen.
    fn cut(&self, path: &Path, seen: Option<i64>) -> Option<(u32, u64)>;
}

/// The lists of one thread, and its two ends.
#[derive(Drop)]
pub(crate) struct Station {
    pub(crate) done: Vec<(Path, Option<(u32, u64)>)>,
    pub(crate) left: Vec<Path>,
    pub(crate) owner: LaneOwner,
    pub(crate) thief: LaneThief,
}

/// Room for one node more: its path, or both its children.
fn make_room(s: &mut Station) -> Result<(), AllocError>
    ensures same { station s.new.done.items s.new.left.items s.new.owner s.new.thief
        ≡ station s.old.done.items s.old.left.items s.old.owner s.old.thief }
    ensures left { OnOk result (vec_len s.new.left + 2 ≤ vec_capacity s.new.left) }
    ensures done { OnOk result (vec_len s.new.done < vec_capacity s.new.done) }
{
    s.left.reserve(2)?;
    s.done.reserve(1)
}

/// Takes a path: one that it keeps, else the last of its own lane, else the first of the other.
fn take(s: &mut Station) -> Option<Path>
    ensures account { MatchOption result
        (IsAccounted
        (station s.old.done.items s.old.left.items s.old.owner s.old.thief)
        (station s.new.done.items s.new.left.items s.new.owner s.new.thief))
        (λ path. IsTaken
        (station s.old.done.items s.old.left.items s.old.owner s.old.thief) path
        (station s.new.done.items s.new.left.items s.new.owner s.new.thief)) }
    ensures left { (vec_len s.new.left ≤ vec_len s.old.left)
        × (vec_capacity s.new.left ≡ vec_capacity s.old.left) }
    ensures done { s.new.done ≡ s.old.done }
{
    if let Some(path) = s.left.pop() {
        return Some(path);
    }
    if let Some(path) = s.owner.pop() {
        return Some(path);
    }
    match s.thief.steal() {
        Stolen::Got(path) => Some(path),
        _ => None,
    }
}

/// Puts a path into its own lane, or keeps it.
fn place(s: &mut Station, path: Path)
    requires { vec_len s.old.left < vec_capacity s.old.left }
    ensures account { IsPlaced
        (station s.old.done.items s.old.left.items s.old.owner s.old.thief) path
        (station s.new.done.items s.new.left.items s.new.owner s.new.thief) }
    ensures left { (vec_len s.new.left ≤ vec_len s.old.left + 1)
        × (vec_capacity s.new.left ≡ vec_capacity s.old.left) }
    ensures done { s.new.done ≡ s.old.done }
{
    if let Err((path, _)) = s.owner.push(path) {
        s.left.push_reserved(path);
    }
}

/// Notes a node that was closed, if one may be drawn; else keeps its path.
fn close(board: &Board, seat: &mut BoardSeat, s: &mut Station, path: Path) -> bool
    requires seat { seat.old.board ≡ board.now }
    requires left { vec_len s.old.left < vec_capacity s.old.left }
    requires done { vec_len s.old.done < vec_capacity s.old.done }
    ensures account { IsPlaced
        (station s.old.done.items s.old.left.items s.old.owner s.old.thief) path
        (station s.new.done.items s.new.left.items s.new.owner s.new.thief) }
    ensures seat { seat.new.board ≡ board.now }
    ensures draws { length s.new.done.items + length seat.old.view.drawn
        ≡ length s.old.done.items + length seat.new.view.drawn }
{
    if board.draw(seat).is_none() {
        s.left.push_reserved(path);
        return false;
    }
    s.done.push_reserved((path, None));
    true
}

/// Notes a node that was split, if one may be drawn, and places its children; else keeps its path.
fn split(
    board: &Board,
    seat: &mut BoardSeat,
    s: &mut Station,
    path: Path,
    cut: (u32, u64),
    halves: (Path, Path),
) -> bool
    requires seat { seat.old.board ≡ board.now }
    requires left { vec_len s.old.left + 2 ≤ vec_capacity s.old.left }
    requires done { vec_len s.old.done < vec_capacity s.old.done }
    requires halves { children_at path (Some cut) ≡ halves.0 ∷ halves.1 ∷ [] }
    ensures account { IsPlaced
        (station s.old.done.items s.old.left.items s.old.owner s.old.thief) path
        (station s.new.done.items s.new.left.items s.new.owner s.new.thief) }
    ensures seat { seat.new.board ≡ board.now }
    ensures draws { length s.new.done.items + length seat.old.view.drawn
        ≡ length s.old.done.items + length seat.new.view.drawn }
{
    if board.draw(seat).is_none() {
        s.left.push_reserved(path);
        return false;
    }
    let (lower, upper) = halves;
    place(s, lower);
    place(s, upper);
    s.done.push_reserved((path, Some(cut)));
    true
}

/// What the judge says of a node, for the best value on the board once a known value was offered.
fn consult<J: Judge>(
    board: &Board,
    seat: &mut BoardSeat,
    judge: &J,
    path: &Path,
) -> Option<(u32, u64)>
    requires { seat.old.board ≡ board.now }
    ensures seat { seat.new.board ≡ board.now }
    ensures drawn { seat.new.view.drawn ≡ seat.old.view.drawn }
{
    if let Some(value) = judge.value(path) {
        board.offer(seat, value);
    }
    let seen = board.look(seat);
    judge.cut(path, seen)
}

/// Does one node, and says whether it did. If none may be drawn, the path is kept.
pub(crate) fn node<J: Judge>(
    alloc: Global,
    board: &Board,
    seat: &mut BoardSeat,
    s: &mut Station,
    judge: &J,
) -> Result<bool, AllocError>
    requires { seat.old.board ≡ board.now }
    ensures account { IsAccounted
        (station s.old.done.items s.old.left.items s.old.owner s.old.thief)
        (station s.new.done.items s.new.left.items s.new.owner s.new.thief) }
    ensures seat { seat.new.board ≡ board.now }
    ensures draws { length s.new.done.items + length seat.old.view.drawn
        ≡ length s.old.done.items + length seat.new.view.drawn }
{
    make_room(s)?;
    let Some(path) = take(s) else {
        return Ok(false);
    };
    let Some((var, at)) = consult(board, seat, judge, &path) else {
        return Ok(close(board, seat, s, path));
    };
    match path.halves(alloc, var, at) {
        Ok(halves) => Ok(split(board, seat, s, path, (var, at), halves)),
        Err(error) => {
            s.left.push_reserved(path);
            Err(error)
        }
    }
}

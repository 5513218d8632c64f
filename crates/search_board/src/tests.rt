//! What a board answers, and two threads at one board.
ghost use Rattle.std.specs.Prelude.{◌≡◌, IfOk};

use super::*;
use std::alloc::{AllocError, Global};
use std::sync::Wait;
use std::test::*;
use std::thread::{Threads, join};

#[test]
fn a_board_of_two(rt: HostRuntime) -> Result<(), Fail> {
    let (board, mut seat) = Board::new(rt.alloc(), 2)?;
    assert_eq!(rt; board.look(&mut seat), None);
    assert_eq!(rt; board.draw(&mut seat), Some(0));
    assert_eq!(rt; board.draw(&mut seat), Some(1));
    assert_eq!(rt; board.draw(&mut seat), None);
    board.offer(&mut seat, -5);
    board.offer(&mut seat, -9);
    assert_eq!(rt; board.look(&mut seat), Some(-5));
    board.offer(&mut seat, 3);
    assert_eq!(rt; board.look(&mut seat), Some(3));
    assert_eq!(rt; board.draw(&mut seat), None);
    Ok(())
}

#[test]
fn the_least_and_the_greatest_value(rt: HostRuntime) -> Result<(), Fail> {
    let (board, mut seat) = Board::new(rt.alloc(), 0)?;
    board.offer(&mut seat, -(1 << 60));
    assert_eq!(rt; board.look(&mut seat), Some(-(1 << 60)));
    let mut other = board.split(&mut seat);
    board.offer(&mut other, 1 << 60);
    board.offer(&mut seat, 0);
    assert_eq!(rt; board.look(&mut seat), Some(1 << 60));
    board.join(&mut seat, other);
    assert_eq!(rt; board.look(&mut seat), Some(1 << 60));
    assert_eq!(rt; board.draw(&mut seat), None);
    Ok(())
}

/// Draws until the budget is spent and on, into a list that threads share. Says how often a draw gave a
/// number after one that gave none.
fn draw_all<R: Wait>(
    rt: &R,
    board: &Board,
    mut seat: BoardSeat,
    log: &boxcar::Vec<u64>,
) -> (BoardSeat, u32)
    requires { seat.board ≡ board.now }
    ensures { result.0.board ≡ board.now }
{
    let mut late = 0u32;
    let mut spent = false;
    for _ in 0..2000 {
        match board.draw(&mut seat) {
            Some(number) => {
                let _ = log.push(rt, number);
                late = late.saturating_add(u32::from(spent));
            }
            None => spent = true,
        }
    }
    (seat, late)
}

/// The numbers that two threads drew, in order, and how many came late.
fn drawn_by_two<R: Threads + Wait + Sync>(
    rt: &R,
    alloc: Global,
    budget: u32,
) -> Result<(Vec<u64>, u32), AllocError> {
    let (board, mut mine) = Board::new(alloc, budget)?;
    let board = &board;
    let one = board.split(&mut mine);
    let two = board.split(&mut mine);
    let log = boxcar::Vec::new(alloc)?;
    let log = &log;
    let ((one, early), (two, late)) = join(
        rt,
        move || -> (BoardSeat, u32)
            requires { one.board ≡ board.now }
            ensures { result.0.board ≡ board.entry.now }
        { draw_all(rt, board, one, log) },
        move || -> (BoardSeat, u32)
            requires { two.board ≡ board.now }
            ensures { result.0.board ≡ board.entry.now }
        { draw_all(rt, board, two, log) },
    );
    board.join(&mut mine, one);
    board.join(&mut mine, two);
    let mut numbers = Vec::new(alloc);
    for index in 0..log.count() {
        if let Some(number) = log.get(index) {
            numbers.push(*number)?;
        }
    }
    numbers.sort_unstable();
    let last = u32::from(board.draw(&mut mine).is_some());
    Ok((numbers, early.saturating_add(late).saturating_add(last)))
}

#[test]
fn two_threads_draw_each_number_once(rt: HostRuntime) -> Result<(), Fail> {
    let (numbers, late) = drawn_by_two(&rt, rt.alloc(), 1000)?;
    assert_eq!(rt; numbers.len(), 1000);
    for index in 0..1000u64 {
        assert_eq!(rt; numbers.get(index as usize).copied(), Some(index));
    }
    assert_eq!(rt; late, 0);
    Ok(())
}

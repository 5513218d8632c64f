//! The board, and the seats from which threads use it.
ghost use Rattle.std.specs.Prelude.{◌≡◌, ℕ, ◌<◌, ◌≤◌, ◌^◌, ◌≢◌, true, Some, IfOk, IfSome, IfNone};
ghost use Rattle.search_board.specs.Values.{IsSmall, rank, named, top, word_of};
ghost use Rattle.search_board.specs.Views.{first_view, seeing, offering, drawing, ending};
ghost use Rattle.search_board.specs.Views.{without_one, with_one, joined};
ghost use Rattle.search_board.specs.Steps.{Moment, IsAllDrawn};
ghost use Rattle.search_board.specs.Handles.{seat_at};

use crate::view::{BoardRule, BoardView, Counts, Draws, Looks, Offers, Parts};
use atomic_table::{Seat, Table};
use std::alloc::{AllocError, Global};
use std::marker::Model;

/// The word of the best value.
const BEST: usize = 0;

/// The word of the number of draws.
const DRAWN: usize = 1;

/// What a value is raised by, so that its word is never 0.
const RAISED: i64 = 1 << 61;

/// The best value that was offered, and the numbers of the nodes that are drawn, for all threads of one
/// search. Each call is one step of a shared word, or two; none waits, and none but `new` takes memory.
#[derive(Drop)]
pub struct Board {
    table: Table<(), BoardView, u64, BoardRule, Global>,
    budget: u64,
}

impl Model for Board {
    ghost use Rattle.std.specs.Prelude.{◌≡◌, ◌<◌, ◌^◌};
    ghost use Rattle.search_board.specs.Handles.{BoardId, board_id};

    ghost Value = { BoardId };

    ghost view = { λ b. board_id b.table.shared.table_id b.budget };

    ghost invariant = { λ b. (b.table.shared.key ≡ b.budget)
        × (b.table.shared.table_id.words ≡ 2) × (b.budget < 2 ^ 32) };
}

/// A seat at the board: one thread uses it at a time. It takes no bytes.
#[derive(Drop)]
pub struct BoardSeat {
    seat: Seat<(), BoardView>,
}

impl Model for BoardSeat {
    ghost use Rattle.std.specs.Prelude.{◌≡◌, ◌<◌, []};
    ghost use Rattle.search_board.specs.Handles.{SeatValue, seat_at, board_id};

    ghost Value = { SeatValue };

    ghost view = { λ s. seat_at (board_id s.seat.table_id s.seat.me.0.budget) s.seat.me.0 };

    ghost invariant = { λ s. (s.seat.me.1 ≡ []) × (0 < s.seat.me.0.parts) };
}

/// What a word of the best value says.
fn value_of(word: u64) -> Option<i64>
    requires { word < 2 ^ 62 }
    ensures { result ≡ named word }
{
    if word == 0 {
        None
    } else {
        Some(word as i64 - RAISED)
    }
}

/// The word of a value.
fn word_of(value: i64) -> u64
    requires { IsSmall value }
    ensures word { result ≡ word_of value }
    ensures small { result < 2 ^ 62 }
{
    (value + RAISED) as u64
}

impl Board {
    /// A board on which nothing was offered or drawn yet, and its first seat, which has all 64 parts.
    pub fn new(alloc: Global, budget: u32) -> Result<(Board, BoardSeat), AllocError>
        ensures budget { IfOk result (λ new. new.0.budget ≡ budget) }
        ensures seat { IfOk result (λ new. new.1 ≡ seat_at new.0 (first_view budget)) }
    {
        let budget = u64::from(budget);
        let (table, seat) = Table::<(), BoardView, u64, BoardRule, Global>::of_words(
            alloc,
            &[0, 0],
            &budget,
        )?;
        Ok((Board { table, budget }, BoardSeat { seat }))
    }

    /// The best value that was offered, by any thread, at the moment of the load.
    pub fn look(&self, seat: &mut BoardSeat) -> Option<i64>
        requires { seat.old.board ≡ self.now }
        ensures seat { seat.new ≡ seat_at self.now (seeing result seat.old.view) }
        ensures later { rank seat.old.view.seen ≤ rank result }
        ensures moment { (drawn : ℕ) × Moment seat.new.view (rank result) drawn }
        // A seat with all parts learns that every offer and every draw was its own.
        ensures best { seat.old.view.parts ≡ 64 → rank result ≡ top seat.old.view.offered }
        ensures drawn { seat.old.view.parts ≡ 64 → IsAllDrawn self.now.budget seat.old.view.drawn }
    {
        value_of(self.table.shared.load::<Looks>(&mut seat.seat, BEST))
    }

    /// Offers a value. The best one is then at least this one.
    pub fn offer(&self, seat: &mut BoardSeat, value: i64)
        requires board { seat.old.board ≡ self.now }
        requires small { IsSmall value }
        ensures { seat.new ≡ seat_at self.now (offering value seat.old.view) }
    {
        let _found = self
            .table
            .shared
            .fetch_max::<Offers>(&mut seat.seat, BEST, word_of(value));
    }

    /// The number of the node that may be done next, from 0, or None if the budget is spent.
    pub fn draw(&self, seat: &mut BoardSeat) -> Option<u64>
        requires { seat.old.board ≡ self.now }
        ensures some { IfSome result (λ n. (n < self.now.budget) × (seat.old.view.ended ≢ true)
            × (seat.new ≡ seat_at self.now (drawing n seat.old.view))) }
        ensures none { IfNone result ((seat.new ≡ seat_at self.now (ending seat.old.view))
            × ((best : ℕ) × (drawn : ℕ) × (self.now.budget ≤ drawn)
            × Moment seat.new.view best drawn)) }
    {
        if self.table.shared.load::<Counts>(&mut seat.seat, DRAWN) >= self.budget {
            return None;
        }
        let number = self
            .table
            .shared
            .fetch_add::<Draws>(&mut seat.seat, DRAWN, 1);
        if number >= self.budget {
            return None;
        }
        Some(number)
    }

    /// A new seat with one part of this one. It has seen what this one has, and has offered and drawn
    /// nothing.
    pub fn split(&self, seat: &mut BoardSeat) -> BoardSeat
        requires board { seat.old.board ≡ self.now }
        requires parts { 2 ≤ seat.old.view.parts }
        ensures left { seat.new ≡ seat_at self.now (without_one seat.old.view) }
        ensures right { result ≡ seat_at self.now (with_one seat.old.view) }
    {
        BoardSeat {
            seat: self.table.shared.split_seat::<Parts>(&mut seat.seat),
        }
    }

    /// Adds the parts, the offers and the draws of a seat to another.
    pub fn join(&self, into: &mut BoardSeat, from: BoardSeat)
        requires into { into.old.board ≡ self.now }
        requires from { from.board ≡ self.now }
        ensures { into.new ≡ seat_at self.now (joined into.old.view from.view) }
    {
        let BoardSeat { seat } = from;
        self.table.shared.join_seat::<Parts>(&mut into.seat, seat);
    }
}

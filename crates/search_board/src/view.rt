//! What a seat at the board knows, the rule that holds between any two steps, and what each step tells.
use atomic_table::{Join, Play, Split, TableRule};
use std::collections::LinkedList;

/// What a seat at the board knows. It is for proofs alone: no value of it is made.
pub struct BoardView {
    /// Of the board's 64 parts, how many the seat has.
    pub parts: u64,
    /// The most nodes that may be drawn.
    pub budget: u64,
    /// The best value that the seat has seen.
    pub seen: Option<i64>,
    /// The values that it offered, the first one first.
    pub offered: LinkedList<i64>,
    /// The numbers that it drew, the first one first.
    pub drawn: LinkedList<u64>,
    /// Whether it has read that the budget is spent.
    pub ended: bool,
}

/// The rule between any two steps. The key is the budget.
pub(crate) struct BoardRule;

impl TableRule<(), BoardView, u64> for BoardRule {
    ghost use Rattle.search_board.specs.Views.{first_view};
    ghost use Rattle.search_board.specs.Rule.{Kept};

    ghost holds = { Kept };

    ghost first = { first_view };
}

/// The load of the best value.
pub(crate) struct Looks;

impl Play<(), BoardView> for Looks {
    ghost use Rattle.search_board.specs.Steps.{Looked};

    ghost then = { Looked };
}

/// The raising of the best value.
pub(crate) struct Offers;

impl Play<(), BoardView> for Offers {
    ghost use Rattle.search_board.specs.Steps.{Offered};

    ghost then = { Offered };
}

/// The load of the drawn number.
pub(crate) struct Counts;

impl Play<(), BoardView> for Counts {
    ghost use Rattle.search_board.specs.Steps.{Counted};

    ghost then = { Counted };
}

/// The adding of one to the drawn number.
pub(crate) struct Draws;

impl Play<(), BoardView> for Draws {
    ghost use Rattle.search_board.specs.Steps.{Drawn};

    ghost then = { Drawn };
}

/// How one part goes to a new seat.
pub(crate) struct Parts;

impl Split<BoardView> for Parts {
    ghost use Rattle.search_board.specs.Views.{without_one, with_one};

    ghost left = { without_one };

    ghost right = { with_one };
}

/// How a seat takes in another.
impl Join<BoardView> for Parts {
    ghost use Rattle.search_board.specs.Views.{joined, spent};

    ghost both = { joined };

    ghost spent = { spent };
}

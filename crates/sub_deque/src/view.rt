//! What an end of a lane knows, the rule between any two steps, and what each step tells.
use crossbeam_deque::protocol::{Join, Outcome, Protocol, Split};
use lin_bound::Path;
use std::collections::LinkedList;

/// What an end of a lane knows. It is for proofs alone: no value of it is made.
pub struct LaneView {
    /// Whether it is the owner's end.
    pub owns: bool,
    /// Whether it is the thief's end.
    pub steals: bool,
    /// The paths that were pushed, the first one first.
    pub put: LinkedList<Path>,
    /// The paths that were popped.
    pub popped: LinkedList<Path>,
    /// The paths that were stolen.
    pub stolen: LinkedList<Path>,
}

/// The rule between any two steps.
pub(crate) struct LaneRule;

impl Protocol<Path, LaneView> for LaneRule {
    ghost use Rattle.sub_deque.specs.Views.{first_view, guest_view};
    ghost use Rattle.sub_deque.specs.Rule.{Kept};

    ghost holds = { Kept };

    ghost first = { first_view };

    ghost guest = { guest_view };
}

/// A push at the back.
pub(crate) struct Pushes;

impl Outcome<Path, LaneView> for Pushes {
    ghost use Rattle.std.specs.Prelude.{◌≡◌};
    ghost use Rattle.sub_deque.specs.Views.{pushing};

    ghost then = { λ v paths w. w ≡ pushing paths v };
}

/// A pop at the back.
pub(crate) struct Pops;

impl Outcome<Path, LaneView> for Pops {
    ghost use Rattle.std.specs.Prelude.{◌≡◌};
    ghost use Rattle.sub_deque.specs.Views.{popping};
    ghost use Rattle.sub_deque.specs.Rule.{Moment};

    ghost then = { λ v paths w. w ≡ popping paths v };

    ghost empty = { Moment 0 };
}

/// A steal at the front. While the owner pops, a lane of one path may look empty.
pub(crate) struct Steals;

impl Outcome<Path, LaneView> for Steals {
    ghost use Rattle.std.specs.Prelude.{◌≡◌};
    ghost use Rattle.sub_deque.specs.Views.{stealing};
    ghost use Rattle.sub_deque.specs.Rule.{Moment};

    ghost then = { λ v paths w. w ≡ stealing paths v };

    ghost empty = { Moment 1 };
}

/// How the thief's end is split from the owner's, and joined to it again.
pub(crate) struct Ends;

impl Split<LaneView> for Ends {
    ghost use Rattle.sub_deque.specs.Views.{owner_view, thief_view};

    ghost left = { λ v. owner_view v.put v.popped };

    ghost right = { λ v. thief_view v.stolen };
}

impl Join<LaneView> for Ends {
    ghost use Rattle.sub_deque.specs.Views.{whole_view, guest_view};

    ghost both = { λ v w. whole_view v.put v.popped w.stolen };

    ghost spent = { guest_view };
}

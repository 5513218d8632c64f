//! The laws that a search rests on, each proved for every problem.
ghost use Rattle.lin_bound.specs.Laws.{EndsAreGreatest, WeakDuality, ClosedHoldsNone, OnePointCloses, HalvesCover};

/// The greatest of weight times count is at one of the ends.
pub fn ends_are_greatest()
    ensures { EndsAreGreatest }
{}

/// `d` times the cost of a feasible point of the box is at most the bound.
pub fn weak_duality()
    ensures { WeakDuality }
{}

/// A closed box holds no feasible point above the value.
pub fn closed_holds_none()
    ensures { ClosedHoldsNone }
{}

/// A box of one point is closed by plain multipliers, where its point is no better than the value.
pub fn one_point_closes()
    ensures { OnePointCloses }
{}

/// The two halves of a box are boxes, and hold its points and no others.
pub fn halves_cover()
    ensures { HalvesCover }
{}

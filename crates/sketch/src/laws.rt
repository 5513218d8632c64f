//! The laws that a refinement rests on, each proved for every problem, and a worked problem.
ghost use Rattle.sketch.specs.Laws.{EachIsPart, EachIsSketched, SketchAddsUp, JoinedAddsUp, JoinedIsFeasible, OneIsJoined};
ghost use Rattle.sketch.specs.Laws.{OthersAreTheRest, OneIsHeldAnew, OthersAreSmall, RefinedKeepsRows};
ghost use Rattle.sketch.specs.Worked.{AreWorked};

/// Each of a problem's parts is a part.
pub fn each_is_part()
    ensures { EachIsPart }
{}

/// The sketch's variable of a part has the means of its members, and the sum of their uppers.
pub fn each_is_sketched()
    ensures { EachIsSketched }
{}

/// A point of the sketch has as cost and rows what the parts give together.
pub fn sketch_adds_up()
    ensures { SketchAddsUp }
{}

/// So has the point that real counts are put together to.
pub fn joined_adds_up()
    ensures { JoinedAddsUp }
{}

/// If what the real counts give together keeps each row, their point is feasible.
pub fn joined_is_feasible()
    ensures { JoinedIsFeasible }
{}

/// Counts can be put together in one way.
pub fn one_is_joined()
    ensures { OneIsJoined }
{}

/// What the other parts give is what all give less what the part gives.
pub fn others_are_the_rest()
    ensures { OthersAreTheRest }
{}

/// If something else is held of a part, the others give what they gave.
pub fn one_is_held_anew()
    ensures { OneIsHeldAnew }
{}

/// What the other parts give is small enough for `refine_problem`.
pub fn others_are_small()
    ensures { OthersAreSmall }
{}

/// A part's counts are feasible for its problem exactly if they keep each row together with the others.
pub fn refined_keeps_rows()
    ensures { RefinedKeepsRows }
{}

/// A problem with three parts is what it was worked out to be by hand.
pub fn worked_parts()
    ensures { AreWorked }
{}

//! Laws of groups, for those who read the definitions.
ghost use Rattle.quadtree.specs.Laws.{PointsAreGrouped};

/// Each point is in exactly one group, and a group has at most so many members, all within the radius of its
/// representative.
pub fn points_are_grouped()
    ensures { PointsAreGrouped }
{}
